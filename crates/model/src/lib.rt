// The two types of a job's numbers, with their ranges. Every other definition of document 01 stands in specs/.
ghost use Rattle.std.specs.Prelude.{◌≡◌};
ghost use Rattle.model.specs.Job.{in_range, array_fits, caps_fit, caps_admitted, centre_limit};

// Whether n lies from least to most.
pub fn in_range(least: usize, most: usize, n: usize) -> bool
    ensures { result ≡ in_range least most n }
{
    (least..=most).contains(&n)
}

// An array of pins.
#[derive(Clone, Copy)]
pub struct Array {
    pub rows: usize,
    pub columns: usize,
}

impl Array {
    // The range of rows, and of columns.
    pub const LEAST: usize = 2;

    pub const MOST: usize = 40;

    // Whether rows and columns are both in range.
    pub fn fits(self) -> bool
        ensures { result ≡ array_fits self.rows self.columns }
    {
        in_range(Array::LEAST, Array::MOST, self.rows)
            && in_range(Array::LEAST, Array::MOST, self.columns)
    }
}

// The capacities of an array: O, D and E of document 01.
#[derive(Clone, Copy)]
pub struct Capacities {
    pub orthogonal: usize,
    pub diagonal: usize,
    pub extra: usize,
}

impl Capacities {
    // The ranges of O and of E. D lies from O to twice O.
    pub const O_LEAST: usize = 1;

    pub const O_MOST: usize = 8;

    pub const E_LEAST: usize = 0;

    pub const E_MOST: usize = 16;

    // Whether O, D and E are all in range.
    pub fn fit(self) -> bool
        ensures { result ≡ caps_fit self.orthogonal self.diagonal self.extra }
    {
        let o = self.orthogonal;
        in_range(Capacities::O_LEAST, Capacities::O_MOST, o)
            && in_range(o, 2 * o, self.diagonal)
            && in_range(Capacities::E_LEAST, Capacities::E_MOST, self.extra)
    }

    // Whether a new job may have them.
    pub fn admitted(self) -> bool
        ensures { result ≡ caps_admitted self.orthogonal self.diagonal self.extra }
    {
        self.fit() && self.extra <= self.diagonal
    }

    // How many wires a centre passes at most.
    pub fn centre_limit(self) -> usize
        ensures { result ≡ centre_limit self.orthogonal self.diagonal }
    {
        self.diagonal.saturating_sub(2 * (self.orthogonal / 2))
    }
}
