// The bits of a number.
ghost use Rattle.std.specs.Prelude.{◌<◌};
ghost use Rattle.sums.specs.Lowest.{Lowest};

// The place of the lowest bit of 1.
pub fn lowest(x: usize) -> usize
    requires { (0 < x) × (x < 256) }
    ensures { Lowest x result }
{
    usize::trailing_zeros(x) as usize
}
