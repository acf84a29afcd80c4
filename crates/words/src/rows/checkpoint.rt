// A checkpoint as it is stored. Here, and where the live state is a candidate for the line (members), a `Checkpoint` is made; nowhere else.
ghost use Rattle.std.specs.Prelude.{◌≡◌};

use model::{Checkpoint, CheckpointIndex, Interval, PROCESSES};

// Its cause is why it is stored (0 initial, 1 basic, 2 forced), `blocks` its process's block count.
pub fn stored(
    index: CheckpointIndex,
    vector: [Interval; PROCESSES],
    cause: u8,
    blocks: u16,
) -> Checkpoint
    ensures { result ≡ record { index = index; vector = vector; cause = cause; blocks = blocks } }
{
    Checkpoint {
        index,
        vector,
        cause,
        blocks,
    }
}
