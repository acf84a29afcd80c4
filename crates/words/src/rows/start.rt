// The rows of a process at the start of a run, and rows that nobody uses.
ghost use Rattle.std.specs.Prelude.{◌≡◌, ◌<◌};
ghost use Rattle.laws.specs.Basics.{List, ℕ};
ghost use Rattle.model.specs.{Words.zero_vector, Words.no_pins_of, Words.no_checkpoint, Words.most_processes, Steps.started};

use model::{Checkpoint, CheckpointIndex, Interval, PROCESSES, Pin};

pub fn zero_vector() -> [Interval; PROCESSES]
    ensures { result ≡ zero_vector }
{
    let zero = Interval(0);
    [zero; PROCESSES]
}

pub fn no_pins() -> [Pin; PROCESSES]
    ensures { result ≡ no_pins_of }
{
    [None; PROCESSES]
}

// What an unused place of a row of kept checkpoints holds.
pub fn no_checkpoint() -> Checkpoint
    ensures { result ≡ no_checkpoint }
{
    let zeros = zero_vector();
    super::checkpoint::stored(CheckpointIndex(0), zeros, 0, 0)
}

// The vector of process p, one of 16: its own entry is 1, the others are 0.
pub fn first_vector(p: usize) -> [Interval; PROCESSES]
    requires { p < most_processes }
    ensures { (block_counts : List ℕ) → result ≡ (started block_counts p).vector }
{
    let mut v = zero_vector();
    v[p] = Interval(1);
    v
}
