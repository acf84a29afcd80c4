// Note 7 of document 02: the verdict on a trace that is read to its end, from what the reading left: a state for each interval that ended or is live, and the messages
// with the rows of their sends and receipts.

// crossing.rt: the near end
pub mod crossing;

// reach.rt: what zigzag paths from the near end reach
pub mod reach;

// far.rt: the far end
pub mod far;

ghost use Rattle.library_judge.specs.decision.Represents.{Holds, Judges};

use crate::pattern::{Sent, State};
use model::PROCESSES;
use theory_patterns::BreakingPair;

// No message crosses: no pair breaks. Else the near end, and what its closure reaches first without knowing it.
pub fn decide(states: &[State], messages: &[Sent], n: usize) -> Option<BreakingPair>
    requires { Holds n states.now messages.now }
    ensures { Judges n states.now messages.now result }
{
    let near = crossing::near_end(states, messages, n)?;
    let mut start = [None; PROCESSES];
    start[near.process] = reach::first_row(states, near);
    let reach = reach::closure(start, states, messages);
    let far = far::far_end(states, &reach, n, near)?;
    Some(BreakingPair { near, far })
}
