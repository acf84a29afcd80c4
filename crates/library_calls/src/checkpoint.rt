// Checkpoint, by value.
ghost use Rattle.std.specs.Prelude.{◌≡◌};
ghost use Rattle.whole_runs.specs.{Outcomes.checkpoint_outcome, WholeRuns.StatePromise};
ghost use Rattle.whole_runs.specs.Calls as made;

use crate::run_words::{fill, read};
use model::{CheckpointAnswer, Refusal, Run};
use words::WORDS;

#[derive(Clone, Copy)]
pub struct CheckpointOutcome {
    pub run: Run,
    pub answer: CheckpointAnswer,
}

// Process i takes a checkpoint. What is deleted goes to the front of the lent list.
// Wherever calls from an accepted start led to s, what the returned state keeps and its blocks are right (demand 3).
pub fn checkpoint(s: Run, i: usize, deleted: &mut [u16]) -> CheckpointOutcome
    ensures run_value { result.run ≡ (checkpoint_outcome s i deleted.old).run }
    ensures answer_value { result.answer ≡ (checkpoint_outcome s i deleted.old).answer }
    ensures deleted_after { deleted.new ≡ (checkpoint_outcome s i deleted.old).deleted }
    ensures state_promise { StatePromise s (made.checkpoint i deleted.old) result.run }
{
    let few = fill::are_counts_fit(s.count, s.underway);
    if !few {
        let answer = Err(Refusal::UnsoundState);
        return CheckpointOutcome { run: s, answer };
    }
    let mut run = s;
    let mut w = [0u16; WORDS];
    fill::fill(&mut w, run);
    let answer = in_place::checkpoint::checkpoint(&mut w, i, deleted);
    match answer {
        Err(_) => {}
        Ok(_) => {
            run = read::read(&w);
        }
    }
    CheckpointOutcome { run, answer }
}
