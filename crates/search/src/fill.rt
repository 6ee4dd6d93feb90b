// Laying wires until no more fits. The marks are kept from wire to wire, since dead spots stay dead; at the end they are cleared once and made anew, so
// that they say what moves reach from the unwired pins.
ghost use Rattle.std.specs.Prelude.{◌≤◌, length};
ghost use Rattle.model.specs.Record.{job_of};
ghost use Rattle.channel.specs.Map.{spots};
ghost use Rattle.augment.specs.Spread.{Room};
ghost use Rattle.augment.specs.Steps.{Whole};
ghost use Rattle.augment.specs.Pins.{Held, Dead};
ghost use Rattle.augment.specs.Work.{SameLent, LentTo};
ghost use Rattle.search.specs.Fill.{Cleared, More, Filled};

use augment::work::Work;

// No spot is marked.
pub fn clear(marks: &mut [u8])
    requires { spots ≤ length marks.old }
    ensures { Cleared marks.new }
{
    for mark in &mut marks[..13128] {
        *mark = 0;
    }
}

// Wires until none fits beside the marks.
fn lay_on(work: &mut Work<'_>, job: &[u8], loads: &mut [u8])
    requires lent { LentTo job.now loads.old work.old }
    requires held { Held (job_of job.now) loads.old }
    requires dead { Dead (job_of job.now) loads.old work.old.marks.now }
    ensures same { SameLent work.old work.new }
    ensures lent { LentTo job.now loads.new work.new }
    ensures more { More (job_of job.now) loads.old loads.new }
    ensures dead { Dead (job_of job.now) loads.new work.new.marks.now }
{
    while work.next_wire(job, loads).is_some() {}
}

// All wires that fit: until none is laid after the marks were cleared.
pub fn fill(
    job: &[u8],
    loads: &mut [u8],
    marks: &mut [u8],
    queue: &mut [u16],
    parent: &mut [u16],
    slot: &mut [u8],
    lists: &mut [u16],
)
    requires { Whole job.now loads.old × Room marks.old queue.old parent.old slot.old × Held (job_of job.now) loads.old
        × (26513 ≤ length lists.old) }
    ensures { Filled (job_of job.now) loads.old loads.new marks.new }
{
    let mut work = Work {
        marks,
        queue,
        parent,
        slot,
        lists,
    };
    clear(work.marks);
    while work.next_wire(job, loads).is_some() {
        lay_on(&mut work, job, loads);
        clear(work.marks);
    }
}
