// The far end: the first process whose least reached row does not know the near end.
ghost use Rattle.std.specs.Prelude.{◌≤◌, ◌<◌};
ghost use Rattle.laws.specs.Basics.{length};
ghost use Rattle.model.specs.Words.{most_processes};
ghost use Rattle.library_judge.specs.decision.Far.{Reaching, FarEnd};

use crate::pattern::State;
use model::{CheckpointIndex, PROCESSES};
use theory_patterns::End;

// The first process whose least reached row does not know the near end, and that row's own entry.
pub fn far_end(
    states: &[State],
    reach: &[Option<usize>; PROCESSES],
    n: usize,
    near: End,
) -> Option<End>
    requires { (n ≤ most_processes) × (near.process < most_processes) × Reaching (length states.now) reach.now }
    ensures { FarEnd states.now reach.now n near result }
{
    for (q, reached) in reach[..n].iter().enumerate() {
        if let Some(row) = *reached {
            let vector = states[row].vector;
            if vector[near.process].0 <= near.index.0 {
                return Some(End {
                    process: q,
                    index: CheckpointIndex(vector[q].0),
                });
            }
        }
    }
    None
}
