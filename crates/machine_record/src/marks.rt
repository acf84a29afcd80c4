// The numbers that a caller lends for the state, read and put.
ghost use Rattle.std.specs.Prelude.{◌≡◌, ◌-◌, ◌*◌, ◌≤◌};
ghost use Rattle.laws.specs.Basics.{min, length};
ghost use Rattle.machine_record.specs.{Machine.block_bytes, Lent.marks_of, Lent.in_bounds_of, Lent.asks_for};
ghost use Rattle.whole_runs.specs.Listing.{most_records};

use crate::{BLOCK_BYTES, BLOCK_LINES, LONGEST_WORD};
use machines::Request;
use whole_runs::MOST_RECORDS;

// The phase; how many bytes of the buffer are left, and how many records were taken; how many bytes of `input` are kept, how many of `out` are asked for, and how many of
// `lines` are still to be reported.
#[derive(Clone, Copy)]
pub struct Marks {
    pub phase: u64,
    pub left: u64,
    pub done: u64,
    pub kept: usize,
    pub size: usize,
    pub pending: usize,
}

pub const COUNTING: u64 = 1;

pub const NAMING: u64 = 2;

pub const BEGINNING: u64 = 3;

pub const WRITING: u64 = 4;

pub const REPORTING: u64 = 5;

pub const READING: u64 = 6;

pub const ENDING: u64 = 7;

pub const FAILING: u64 = 8;

pub const STOPPED: u64 = 0;

// The bytes of the longest trace: its first byte and every record that a replay takes.
pub const LONGEST_TRACE: u64 = 1 + 4 * MOST_RECORDS;

const WHOLE_BLOCK: u64 = BLOCK_BYTES as u64;

// A phase in which nothing is counted but the bytes of the buffer.
pub fn at(phase: u64, left: u64) -> Marks
    ensures { result ≡ record { phase = phase; left = left; done = 0; kept = 0; size = 0; pending = 0 } }
{
    Marks {
        phase,
        left,
        done: 0,
        kept: 0,
        size: 0,
        pending: 0,
    }
}

// Whether the numbers are those of a state.
pub fn in_bounds(m: Marks, out: usize) -> bool
    ensures { result ≡ in_bounds_of m out }
{
    (m.left <= LONGEST_TRACE)
        & ((m.done <= MOST_RECORDS)
            & ((m.kept <= 3) & ((m.size <= out) & (m.pending <= BLOCK_LINES))))
}

pub fn read(memory: &[u64]) -> Marks
    requires { 6 ≤ length memory.now }
    ensures { result ≡ marks_of memory.now }
{
    Marks {
        phase: memory[0],
        left: memory[1],
        done: memory[2],
        kept: memory[3] as usize,
        size: memory[4] as usize,
        pending: memory[5] as usize,
    }
}

pub fn put(memory: &mut [u64], m: Marks)
    requires { 6 ≤ length memory.old }
    ensures { marks_of memory.new ≡ m }
{
    memory[0] = m.phase;
    memory[1] = m.left;
    memory[2] = m.done;
    memory[3] = m.kept as u64;
    memory[4] = m.size as u64;
    memory[5] = m.pending as u64;
}

// How many bytes are asked for after those that are kept: no block is larger than 4,096 bytes, and none reaches past record 1,000,000,000.
pub fn most_to_read(done: u64, kept: usize) -> usize
    requires { (done ≤ most_records) × (kept ≤ 3) }
    ensures { result ≡ min block_bytes (4 * (most_records - done)) - kept }
{
    let end = 4 * (MOST_RECORDS - done);
    if WHOLE_BLOCK < end {
        return BLOCK_BYTES - kept;
    }
    let last = end as usize;
    if last < kept {
        return 0;
    }
    last - kept
}

// What the machine asks for.
pub fn request(m: Marks) -> Request
    requires { (m.done ≤ most_records) × (m.kept ≤ 3) }
    ensures { result ≡ asks_for m }
{
    let phase = m.phase;
    match phase {
        1 => Request::Count,
        2 => Request::Argument(1, m.kept, LONGEST_WORD),
        3 => Request::Read(m.kept, 1),
        4 => Request::Write(m.size),
        5 => Request::Say(m.size),
        6 => Request::Read(m.kept, most_to_read(m.done, m.kept)),
        7 => Request::Say(m.size),
        8 => Request::Fail(m.size),
        _ => Request::Stop,
    }
}
