// How far the check of a listing is.
ghost use Rattle.std.specs.Prelude.{◌≡◌, ◌+◌, ◌<◌, IfOk, IsNone};

use crate::fault::Fault;

// The offset, the pin whose wire is checked, the node that the wire has come to (START between two wires) and its position round that node, if it has one,
// the length so far, and what is wrong, if anything is.
#[derive(Clone, Copy, PartialEq, Eq, Debug)]
pub struct Walk {
    pub at: usize,
    pub pin: usize,
    pub node: usize,
    pub came: Option<u8>,
    pub length: usize,
    pub fault: Option<Fault>,
}

impl Walk {
    // The same with this fault.
    pub fn at_fault(self, fault: Fault) -> Walk
        ensures fault { result.fault ≡ Some fault }
        ensures place { (result.at ≡ self.at) × (result.pin ≡ self.pin) × (result.node ≡ self.node) }
        ensures length { result.length ≡ self.length }
    {
        Walk {
            fault: Some(fault),
            ..self
        }
    }

    // The walk at the next pin.
    pub fn next_pin(self, node: usize) -> Walk
        ensures next { self.pin < 1600 → (result.pin ≡ self.pin + 1) × (result.node ≡ node) }
        ensures kept { (result.at ≡ self.at) × (result.length ≡ self.length) × (result.fault ≡ self.fault) }
    {
        if self.pin >= 1600 {
            return self;
        }
        Walk {
            pin: self.pin + 1,
            node,
            came: None,
            ..self
        }
    }

    // The length, if nothing is wrong.
    pub fn checked(self) -> Result<usize, Fault>
        ensures { IfOk result (λ n. (n ≡ self.length) × IsNone self.fault) }
    {
        match self.fault {
            None => Ok(self.length),
            Some(fault) => Err(fault),
        }
    }
}
