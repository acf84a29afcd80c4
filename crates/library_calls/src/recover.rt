// The recovery of a failed set, and the sweep, by value.
ghost use Rattle.std.specs.Prelude.{◌≡◌};
ghost use Rattle.whole_runs.specs.{Outcomes.recover_outcome, Clean.CleanPromise, Sweep.SweepPromise, WholeRuns.LinePromise, WholeRuns.StatePromise};
ghost use Rattle.whole_runs.specs.Calls as made;

use crate::run_words::{fill, read};
use model::{RecoverAnswer, Refusal, Run};
use words::WORDS;

#[derive(Clone, Copy)]
pub struct RecoverOutcome {
    pub run: Run,
    pub answer: RecoverAnswer,
}

// Every process goes back to the line for a failed set: its indexes go to the front of the one lent list, what is deleted to the front of the other.
// Wherever calls from an accepted start led to s, the line is right, and so is what s and the returned state keep (demand 3); if the call is accepted,
// the returned state keeps a checkpoint exactly if some failure would use it (Note 6). Wherever s is sound, a recovery for the empty set rolls nobody back (Note 4).
pub fn recover(s: Run, failed: u16, deleted: &mut [u16], line: &mut [u16]) -> RecoverOutcome
    ensures run_value { result.run ≡ (recover_outcome s failed deleted.old line.old).run }
    ensures answer_value { result.answer ≡ (recover_outcome s failed deleted.old line.old).answer }
    ensures deleted_after { deleted.new ≡ (recover_outcome s failed deleted.old line.old).deleted }
    ensures line_after { line.new ≡ (recover_outcome s failed deleted.old line.old).line }
    ensures line_promise { LinePromise s failed }
    ensures state_promise { StatePromise s (made.recover failed deleted.old line.old) result.run }
    ensures clean_promise { CleanPromise s failed deleted.old line.old result.run }
    ensures sweep_promise { SweepPromise s failed deleted.old line.old result.answer line.new result.run }
{
    let few = fill::are_counts_fit(s.count, s.underway);
    if !few {
        let answer = Err(Refusal::UnsoundState);
        return RecoverOutcome { run: s, answer };
    }
    let mut run = s;
    let mut w = [0u16; WORDS];
    fill::fill(&mut w, run);
    let answer = in_place_recover::recover(&mut w, failed as u32, deleted, line);
    match answer {
        Err(_) => {}
        Ok(_) => {
            run = read::read(&w);
        }
    }
    RecoverOutcome { run, answer }
}
