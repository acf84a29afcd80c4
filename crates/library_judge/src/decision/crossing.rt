// The near end: which received messages cross, and the least that a receiver's state knows where one does.
ghost use Rattle.std.specs.Prelude.{◌≡◌, ◌≤◌, ◌<◌};
ghost use Rattle.laws.specs.Basics.{length};
ghost use Rattle.model.specs.Words.{most_processes};
ghost use Rattle.library_judge.specs.decision.Crossings.{Inside, Sized, crossing_of, lesser_of, least_crossing_of, NearEnd};

use crate::pattern::{Fate, Sent, State};
use model::CheckpointIndex;
use theory_patterns::End;

// A message crosses for f where the state that ends its receiver's interval knows less of f than the one that ends its sender's: what it knows.
#[tactic(auto, unfolding(crate::specs::decision::Crossings::crossing_of, crate::specs::decision::Crossings::crosses_by))]
fn crossing(states: &[State], message: &Sent, f: usize) -> Option<u16>
    requires { (f < most_processes) × Inside (length states.now) message.now }
    ensures { result ≡ crossing_of states.now f message.now }
{
    match message.fate {
        Fate::Received(row) => {
            let sent = states[usize::from(message.from)].vector[f].0;
            let known = states[usize::from(row)].vector[f].0;
            (known < sent).then_some(known)
        }
        _ => None,
    }
}

// The lesser of two that may be there. Most messages cross for no process: the second one is tested first, and nothing is done where it is not there.
#[tactic(auto, unfolding(crate::specs::decision::Crossings::lesser_of))]
fn lesser(a: Option<u16>, b: Option<u16>) -> Option<u16>
    ensures { result ≡ lesser_of a b }
{
    match b {
        Some(y) => Some(a.map_or(y, |x| x.min(y))),
        None => a,
    }
}

fn least_crossing(states: &[State], messages: &[Sent], f: usize) -> Option<u16>
    requires { (f < most_processes) × Sized states.now messages.now }
    ensures { result ≡ least_crossing_of states.now messages.now f (length messages.now) }
{
    let mut least = None;
    for message in messages {
        least = lesser(least, crossing(states, message, f));
    }
    least
}

// The first process for which a message crosses, and the least entry there.
pub fn near_end(states: &[State], messages: &[Sent], n: usize) -> Option<End>
    requires { (n ≤ most_processes) × Sized states.now messages.now }
    ensures { NearEnd states.now messages.now n result }
{
    for f in 0..n {
        if let Some(least) = least_crossing(states, messages, f) {
            return Some(End {
                process: f,
                index: CheckpointIndex(least),
            });
        }
    }
    None
}
