// What an edit is, and how one is made in a record.
ghost use Rattle.std.specs.Prelude.{◌≡◌, [], List, ℕ, ◌≤◌, length, MatchResult};
ghost use Rattle.model.specs.Job.{Job};
ghost use Rattle.model.specs.Links.{Step};
ghost use Rattle.model.specs.Record.{record_size, job_of, load, Legal, record_of, over};
ghost use Rattle.model.specs.Calls.{After, after, edited, On};
ghost use Rattle.answers.specs.Answers.{answered, as_done, refused_as};
ghost use Rattle.takeout.specs.LeftRecord.{SameRecord};

use answers::{Refusal, undamaged};
use channel::copy::copy;

// An edit of the job that a legal record holds. It takes out wires, and the others stay.
pub trait Edit {
    // what the edit leaves of a legal record
    ghost leaves: { Self → List ℕ → After };

    // what holds of a job for which no test of the edit fails
    ghost admits: { Self → Job → Type 0 };

    // the edited job, and the loads of the wires that stay
    ghost job: { Self → Job → Job };

    ghost left: { Self → Job → (Step → ℕ) → Step → ℕ };

    // Refuses the edit by the first test that fails.
    fn admit(&self, rec: &[u8]) -> Result<(), Refusal>
        requires { Legal rec.now }
        ensures { MatchResult result (λ _. admits self.now (job_of rec.now)) (λ e. after (refused_as e) rec.now [] [] ≡ leaves self.now rec.now) };

    // Whether the value stands there already.
    fn stands(&self, rec: &[u8]) -> bool
        requires { Legal rec.now × admits self.now (job_of rec.now) }
        ensures { edited result (job self.now (job_of rec.now)) (left self.now (job_of rec.now) (load rec.now)) rec.now ≡ leaves self.now rec.now };

    // Stores the value in `rec`. The wires that it takes out are followed in `was`, a copy of the record.
    fn store(&self, was: &[u8], rec: &mut [u8])
        requires { Legal was.now × (record_size ≤ length rec.old) × SameRecord was.now rec.old × admits self.now (job_of was.now) }
        ensures { rec.new ≡ over (record_of (job self.now (job_of was.now)) (left self.now (job_of was.now) (load was.now))) rec.old };
}

// Stores the value of an edit that is admitted, beside a copy of the record. A function of its own, so that the copy and what the audit works on are never on
// the stack together.
#[inline(never)]
fn rewrite<E: Edit>(rec: &mut [u8], edit: &E)
    requires { Legal rec.old × E.admits edit.now (job_of rec.old) }
    ensures { rec.new ≡ over (record_of (E.job edit.now (job_of rec.old)) (E.left edit.now (job_of rec.old) (load rec.old))) rec.old }
{
    let mut was = [0u8; 32768];
    copy(rec, &mut was);
    edit.store(&was, rec);
}

// Makes an edit in any record.
pub fn make<E: Edit>(rec: &mut [u8], edit: &E) -> Result<(), Refusal>
    ensures { On rec.old [] [] (after (answered as_done result) rec.new [] [])
        (after (answered as_done result) rec.new [] [] ≡ E.leaves edit.now rec.old) }
{
    undamaged(rec)?;
    edit.admit(rec)?;
    if !edit.stands(rec) {
        rewrite(rec, edit);
    }
    Ok(())
}
