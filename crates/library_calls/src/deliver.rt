// Deliver, by value.
ghost use Rattle.std.specs.Prelude.{◌≡◌};
ghost use Rattle.whole_runs.specs.{Outcomes.deliver_outcome, WholeRuns.StatePromise};
ghost use Rattle.whole_runs.specs.Calls as made;

use crate::run_words::{fill, read};
use model::{DeliverAnswer, Refusal, Run};
use words::WORDS;

// What a deliver call returns besides the lent list. `rose` is the set of the receiver's entries that rose, bit f for entry f; 0 with a refusal.
#[derive(Clone, Copy)]
pub struct DeliverOutcome {
    pub run: Run,
    pub answer: DeliverAnswer,
    pub rose: u16,
}

// Message m reaches its receiver. What is deleted goes to the front of the lent list; `rose` is the set of the receiver's entries that rose.
// Wherever calls from an accepted start led to s, what the returned state keeps and its blocks are right (demand 3).
pub fn deliver(s: Run, m: u32, deleted: &mut [u16]) -> DeliverOutcome
    ensures run_value { result.run ≡ (deliver_outcome s m deleted.old).run }
    ensures answer_value { result.answer ≡ (deliver_outcome s m deleted.old).answer }
    ensures rose_value { result.rose ≡ (deliver_outcome s m deleted.old).rose }
    ensures deleted_after { deleted.new ≡ (deliver_outcome s m deleted.old).deleted }
    ensures state_promise { StatePromise s (made.deliver m deleted.old) result.run }
{
    let few = fill::are_counts_fit(s.count, s.underway);
    if !few {
        let answer = Err(Refusal::UnsoundState);
        return DeliverOutcome {
            run: s,
            answer,
            rose: 0,
        };
    }
    let mut run = s;
    let mut w = [0u16; WORDS];
    fill::fill(&mut w, run);
    let delivered = in_place::deliver::deliver(&mut w, m, deleted);
    let answer = delivered.answer;
    let rose = delivered.rose;
    match answer {
        Err(_) => {}
        _ => {
            run = read::read(&w);
        }
    }
    DeliverOutcome { run, answer, rose }
}
