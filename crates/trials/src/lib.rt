// Document 02, K6: the operation that makes a job for a load trial. The pins by row and column take one draw each, then the tiles.
#![tactic(auto)]

ghost use Rattle.std.specs.Prelude.{◌≡◌, Bool, true, false, ℕ, List, [], ◌+◌, ◌*◌, ◌%◌, ◌≤◌, ◌<◌, T, length, set};
ghost use Rattle.model.specs.Job.{array_fits, caps_admitted};
ghost use Rattle.model.specs.Record.{record_size, offset, unwired_record, over};
ghost use Rattle.model.specs.Trial.{number_after, trial_of, seed_fits, percents_fit, trial_job};
ghost use Rattle.model.specs.Calls.{trial as Trial, after, Did};
ghost use Rattle.answers.specs.Answers.{answered, as_done};
ghost use Rattle.trials.specs.Filling.{value_drawn, plane_of, Filling, Filled};

use answers::Refusal;
use channel::{set_mark, set_state, write_fresh};
use generator::Generator;
use model::{Array, Capacities};

// What a trial draws: the number that it starts from, and the percentages of chosen and missing pins and of closed tiles.
#[derive(Debug, Clone, Copy, PartialEq, Eq)]
pub struct Draws {
    pub seed: usize,
    pub chosen: usize,
    pub missing: usize,
    pub closed: usize,
}

impl Draws {
    // Whether a trial may start from the number.
    pub fn starts(self) -> bool
        ensures { result ≡ seed_fits self.seed }
    {
        if self.seed == 0 {
            return false;
        }
        self.seed < 4294967296
    }

    // Whether the percentages are such.
    pub fn are_percentages(self) -> bool
        ensures { result ≡ percents_fit self.chosen self.missing self.closed }
    {
        if self.chosen > 100 {
            return false;
        }
        if self.missing > 100 - self.chosen {
            return false;
        }
        self.closed <= 100
    }
}

// The percentages below which a draw makes 1 and 2 of a cell.
#[derive(Debug, Clone, Copy, PartialEq, Eq)]
struct Bounds {
    low: usize,
    high: usize,
}

impl Bounds {
    // What a draw makes of a cell: 1 below the one bound, 2 below the other, else 0.
    fn value_of(self, draw: u32) -> usize
        ensures { (result ≡ value_drawn self.low self.high (draw % 100)) × (result < 256) }
    {
        let n = (draw % 100) as usize;
        if n < self.low {
            return 1;
        }
        if n < self.high {
            return 2;
        }
        0
    }
}

// A plane of a record that is filled by draws: the marks of pins, or the states of tiles.
trait Plane {
    ghost tiles: { Bool };

    // The value of a cell.
    fn put(rec: &mut [u8], r: usize, c: usize, v: usize)
        requires long { record_size ≤ length rec.old }
        requires cell { (r < 40) × (c < 40) × (v < 256) }
        ensures { rec.new ≡ set rec.old (offset (plane_of tiles) r c) v };
}

struct Marks;

struct States;

impl Plane for Marks {
    ghost tiles = { false };

    fn put(rec: &mut [u8], r: usize, c: usize, v: usize) {
        set_mark(rec, r, c, v);
    }
}

impl Plane for States {
    ghost tiles = { true };

    fn put(rec: &mut [u8], r: usize, c: usize, v: usize) {
        set_state(rec, r, c, v);
    }
}

// A row of cells, each by one draw.
fn fill_row<P: Plane>(
    rec: &mut [u8],
    r: usize,
    width: usize,
    generator: &mut Generator,
    bounds: Bounds,
)
    requires long { record_size ≤ length rec.old }
    requires row { (r < 40) × (width ≤ 40) }
    ensures { (height first : ℕ) (start : List ℕ) → r < height → height ≤ 40
        → generator.old.number ≡ number_after (width * r) first
        → Filling P.tiles height width first bounds.low bounds.high r 0 start rec.old
        → (generator.new.number ≡ number_after (width * (r + 1)) first)
        × Filling P.tiles height width first bounds.low bounds.high (r + 1) 0 start rec.new }
{
    for c in 0..width {
        P::put(rec, r, c, bounds.value_of(generator.next()));
    }
}

// An array of cells by row and column, each by one draw.
fn fill<P: Plane>(
    rec: &mut [u8],
    height: usize,
    width: usize,
    generator: &mut Generator,
    bounds: Bounds,
)
    requires long { record_size ≤ length rec.old }
    requires array { (height ≤ 40) × (width ≤ 40) }
    ensures { (generator.new.number ≡ number_after (width * height) generator.old.number)
        × Filled P.tiles height width generator.old.number bounds.low bounds.high rec.old rec.new }
{
    for r in 0..height {
        fill_row::<P>(rec, r, width, generator, bounds);
    }
}

// The record of a trial's job.
fn make(rec: &mut [u8], array: Array, capacities: Capacities, draws: Draws)
    requires long { record_size ≤ length rec.old }
    requires job { T (array_fits array.rows array.columns) × T (caps_admitted capacities.orthogonal capacities.diagonal capacities.extra) }
    requires draws { T (seed_fits draws.seed) × T (percents_fit draws.chosen draws.missing draws.closed) }
    ensures { rec.new
        ≡ over (unwired_record (trial_job (trial_of array.rows array.columns capacities.orthogonal capacities.diagonal capacities.extra draws.seed draws.chosen draws.missing draws.closed))) rec.old }
{
    write_fresh(
        rec,
        array.rows,
        array.columns,
        capacities.orthogonal,
        capacities.diagonal,
        capacities.extra,
    );
    let mut generator = Generator {
        number: draws.seed as u32,
    };
    let pins = Bounds {
        low: draws.chosen,
        high: draws.chosen + draws.missing,
    };
    let tiles = Bounds {
        low: draws.closed,
        high: draws.closed,
    };
    let height = array.rows - 1;
    let width = array.columns - 1;
    fill::<Marks>(rec, array.rows, array.columns, &mut generator, pins);
    fill::<States>(rec, height, width, &mut generator, tiles);
}

// The job of a trial.
pub fn trial(
    rec: &mut [u8],
    array: Array,
    capacities: Capacities,
    draws: Draws,
) -> Result<(), Refusal>
    ensures { Did (Trial (trial_of array.rows array.columns capacities.orthogonal capacities.diagonal capacities.extra draws.seed draws.chosen draws.missing draws.closed)) rec.old
        (after (answered as_done result) rec.new [] []) }
{
    if rec.len() < 32768 {
        return Err(Refusal::Damaged);
    }
    if !array.fits() {
        return Err(Refusal::Size);
    }
    if !capacities.admitted() {
        return Err(Refusal::Capacities);
    }
    if !draws.starts() {
        return Err(Refusal::Seed);
    }
    if !draws.are_percentages() {
        return Err(Refusal::Percentages);
    }
    make(rec, array, capacities, draws);
    Ok(())
}
