// Send, by value.
ghost use Rattle.std.specs.Prelude.{◌≡◌};
ghost use Rattle.whole_runs.specs.{Outcomes.send_outcome, WholeRuns.StatePromise};
ghost use Rattle.whole_runs.specs.Calls as made;

use crate::run_words::{fill, read};
use model::{Refusal, Run, SendAnswer};
use words::WORDS;

#[derive(Clone, Copy)]
pub struct SendOutcome {
    pub run: Run,
    pub answer: SendAnswer,
}

// Process i sends a message to process j.
// Wherever calls from an accepted start led to s, what the returned state keeps and its blocks are right (demand 3).
pub fn send(s: Run, i: usize, j: usize) -> SendOutcome
    ensures run_value { result.run ≡ (send_outcome s i j).run }
    ensures answer_value { result.answer ≡ (send_outcome s i j).answer }
    ensures state_promise { StatePromise s (made.send i j) result.run }
{
    let few = fill::are_counts_fit(s.count, s.underway);
    if !few {
        let answer = Err(Refusal::UnsoundState);
        return SendOutcome { run: s, answer };
    }
    let mut run = s;
    let mut w = [0u16; WORDS];
    fill::fill(&mut w, run);
    let answer = in_place::send::send(&mut w, i, j);
    match answer {
        Err(_) => {}
        Ok(_) => {
            run = read::read_messages(&w, run);
        }
    }
    SendOutcome { run, answer }
}
