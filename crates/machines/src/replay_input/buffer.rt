// The buffer that blocks of a trace are read into: how far it may be filled, and the bytes that stay in it from one block to the next.
ghost use Rattle.std.specs.Prelude.{◌≡◌, ◌-◌, ◌*◌, ◌≤◌};
ghost use Rattle.laws.specs.Basics.{min, length, take, drop, sets};
ghost use Rattle.whole_runs.specs.Listing.{most_records};

use whole_runs::MOST_RECORDS;

// How far a buffer of `size` bytes may be filled where `done` records were taken: never past the last record that a replay takes.
pub fn fill_to(done: u64, size: usize) -> usize
    requires { done ≤ most_records }
    ensures { result ≡ min size (4 * (most_records - done)) }
{
    let left = (4 * (MOST_RECORDS - done)) as usize;
    if size < left { size } else { left }
}

// The bytes of a buffer from place `from` up to `end` are put at place `to`, and the rest of it is unchanged: the start of a record that is not whole yet.
pub fn keep(buffer: &mut [u8], to: usize, from: usize, end: usize)
    requires { (to ≤ from) × (from ≤ end) × (end ≤ length buffer.old) }
    ensures { buffer.new ≡ sets buffer.old to (take (end - from) (drop from buffer.old)) }
{
    let left = end - from;
    let mut k = 0;
    while k < left {
        let byte = buffer[from + k];
        buffer[to + k] = byte;
        k += 1;
    }
}
