// The numbers that a caller lends for the state, read and put.
ghost use Rattle.std.specs.Prelude.{◌≡◌, ◌≤◌};
ghost use Rattle.laws.specs.Basics.{length};
ghost use Rattle.machine_console.specs.Lent.{marks_of, most_done_of, in_bounds_of, asks_for};

use machines::Request;

// The phase; how many calls were made; how many bytes of `input` are kept, and how many of `out` are asked for.
#[derive(Clone, Copy)]
pub struct Marks {
    pub phase: u64,
    pub done: u64,
    pub kept: usize,
    pub size: usize,
}

pub const OPENING: u64 = 1;

pub const READING: u64 = 2;

pub const PRINTING: u64 = 3;

pub const ENDING: u64 = 4;

pub const FAILING: u64 = 5;

pub const STOPPED: u64 = 0;

// No script is so long (most_calls in specs/Consoling).
pub const MOST_CALLS: u64 = 9000000000000000000;

// The last of them, counted from 0.
const LAST_CALL: u64 = MOST_CALLS - 1;

// A phase in which no calls are counted.
pub fn at(phase: u64, size: usize) -> Marks
    ensures { result ≡ record { phase = phase; done = 0; kept = 0; size = size } }
{
    Marks {
        phase,
        done: 0,
        kept: 0,
        size,
    }
}

fn most_done(phase: u64) -> u64
    ensures { result ≡ most_done_of phase }
{
    if phase == READING {
        return LAST_CALL;
    }
    MOST_CALLS
}

// Whether the numbers are those of a state.
pub fn in_bounds(m: Marks, out: usize) -> bool
    ensures { result ≡ in_bounds_of m out }
{
    let most = most_done(m.phase);
    (m.done <= most) & ((m.kept <= 7) & (m.size <= out))
}

pub fn read(memory: &[u64]) -> Marks
    requires { 4 ≤ length memory.now }
    ensures { result ≡ marks_of memory.now }
{
    Marks {
        phase: memory[0],
        done: memory[1],
        kept: memory[2] as usize,
        size: memory[3] as usize,
    }
}

pub fn put(memory: &mut [u64], m: Marks)
    requires { 4 ≤ length memory.old }
    ensures { marks_of memory.new ≡ m }
{
    memory[0] = m.phase;
    memory[1] = m.done;
    memory[2] = m.kept as u64;
    memory[3] = m.size as u64;
}

// What the machine asks for.
pub fn request(m: Marks) -> Request
    requires { m.kept ≤ 7 }
    ensures { result ≡ asks_for m }
{
    let phase = m.phase;
    match phase {
        1 => Request::Read(m.kept, 1),
        2 => Request::Read(m.kept, 8 - m.kept),
        3 => Request::Write(m.size),
        4 => Request::Write(m.size),
        5 => Request::Fail(m.size),
        _ => Request::Stop,
    }
}
