// What can be wrong with a listing.

#[derive(Clone, Copy, PartialEq, Eq, Debug)]
pub enum Fault {
    WrongCount,
    WrongPin,
    WrongForm,
    NoPlace,
    NoLink,
    PlaceTwice,
    LaneTwice,
    BothWays,
    OverLimit,
    LaneSkipped,
    NotEnded,
    NotPaired,
    WrongTotal,
    NotLeast,
}
