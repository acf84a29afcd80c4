// The closure: the least row of each process that a zigzag path from the near end reaches, if one does.
ghost use Rattle.std.specs.Prelude.{◌≡◌, ◌||◌, ◌<◌};
ghost use Rattle.laws.specs.Basics.{Bool, false, length};
ghost use Rattle.model.specs.Words.{most_processes};
ghost use Rattle.library_judge.specs.decision.{Reach.Joins, Reach.Linked, Reach.relaxed_by, Reach.passed, Reach.Closure, Reach.FirstRow};

use crate::pattern::{Fate, Sent, State};
use model::PROCESSES;
use theory_patterns::End;

// The first row of a process whose own entry is above an index.
pub fn first_row(states: &[State], near: End) -> Option<usize>
    requires { near.process < most_processes }
    ensures { FirstRow states.now near.process near.index.0 result }
{
    states.iter().position(|s| usize::from(s.process) == near.process
        && near.index.0 < s.vector[near.process].0)
}

// One message: what its sender's reached interval lets it lower, and whether it does.
#[tactic(auto, unfolding(crate::specs::decision::Reach::relaxed_by, crate::specs::decision::Reach::lowered_by))]
fn relax(reach: &mut [Option<usize>; PROCESSES], states: &[State], message: &Sent) -> bool
    requires { Joins states.now message.now }
    ensures { (c : Bool) → record { reach = reach.new; changed = c || result } ≡ relaxed_by states.now message.now (record { reach = reach.old; changed = c }) }
{
    match message.fate {
        Fate::Received(row) => {
            let (a, b) = (usize::from(message.from), usize::from(row));
            let (s, q) = (
                usize::from(states[a].process),
                usize::from(states[b].process),
            );
            let lowers = reach[s].is_some_and(|r| r <= a) && reach[q].is_none_or(|r| b < r);
            if lowers {
                reach[q] = Some(b);
            }
            lowers
        }
        _ => false,
    }
}

// One pass over the messages, highest number first: whether it lowers a row.
fn pass_over(reach: &mut [Option<usize>; PROCESSES], states: &[State], messages: &[Sent]) -> bool
    requires { Linked states.now messages.now }
    ensures { record { reach = reach.new; changed = result } ≡ passed states.now messages.now (length messages.now) (record { reach = reach.old; changed = false }) }
{
    let mut changed = false;
    for message in messages.iter().rev() {
        changed |= relax(reach, states, message);
    }
    changed
}

// Passes until one lowers nothing: how many these are shows only as they run.
pub fn closure(
    start: [Option<usize>; PROCESSES],
    states: &[State],
    messages: &[Sent],
) -> [Option<usize>; PROCESSES]
    requires { Linked states.now messages.now }
    ensures { Closure (length messages.now) states.now messages.now start result }
{
    let mut reach = start;
    while pass_over(&mut reach, states, messages) {}
    reach
}
