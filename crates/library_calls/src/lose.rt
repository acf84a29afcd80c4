// Lose, by value.
ghost use Rattle.std.specs.Prelude.{◌≡◌};
ghost use Rattle.whole_runs.specs.{Outcomes.lose_outcome, WholeRuns.StatePromise};
ghost use Rattle.whole_runs.specs.Calls as made;

use crate::run_words::{fill, read};
use model::{LoseAnswer, Refusal, Run};
use words::WORDS;

#[derive(Clone, Copy)]
pub struct LoseOutcome {
    pub run: Run,
    pub answer: LoseAnswer,
}

// Message m is lost.
// Wherever calls from an accepted start led to s, what the returned state keeps and its blocks are right (demand 3).
pub fn lose(s: Run, m: u32) -> LoseOutcome
    ensures run_value { result.run ≡ (lose_outcome s m).run }
    ensures answer_value { result.answer ≡ (lose_outcome s m).answer }
    ensures state_promise { StatePromise s (made.lose m) result.run }
{
    let few = fill::are_counts_fit(s.count, s.underway);
    if !few {
        let answer = Err(Refusal::UnsoundState);
        return LoseOutcome { run: s, answer };
    }
    let mut run = s;
    let mut w = [0u16; WORDS];
    fill::fill(&mut w, run);
    let answer = in_place::lose::lose(&mut w, m);
    match answer {
        Err(_) => {}
        Ok(()) => {
            run = read::read_messages(&w, run);
        }
    }
    LoseOutcome { run, answer }
}
