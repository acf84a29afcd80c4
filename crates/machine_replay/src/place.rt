// The numbers of a state: in which phase it is, and what it knows there.
ghost use Rattle.std.specs.Prelude.{◌≡◌, ◌≤◌};
ghost use Rattle.laws.specs.Basics.{length};
ghost use Rattle.machine_replay.specs.Standing.{numbers, bit_of, place_in, enough_room, inside};

use listing::LONGEST_LINE;
use whole_runs::MOST_RECORDS;
use words::WORDS;

// Whether it goes on after a refusal; how many records were taken; where the bytes that belong to none of them begin in the buffer, and how many they are; how long the
// text is that is written.
#[derive(Clone, Copy)]
pub struct Place {
    pub phase: u64,
    pub all: bool,
    pub count: u64,
    pub from: usize,
    pub buffered: usize,
    pub written: usize,
}

pub const STARTING: u64 = 0;

pub const COUNTED: u64 = 1;

pub const OPENING: u64 = 2;

pub const READING: u64 = 3;

pub const PRINTING: u64 = 4;

pub const ENDING: u64 = 5;

pub const FAILING: u64 = 6;

pub const STOPPED: u64 = 7;

// How many numbers a caller lends.
pub const NUMBERS: usize = 6;

// The least buffer for what is read.
pub const LEAST_INPUT: usize = 8;

const RECORD: usize = 4;

pub fn load(memory: &[u64]) -> Place
    requires { numbers ≤ length memory.now }
    ensures { result ≡ place_in memory.now }
{
    let all = memory[1] == 1;
    let from = memory[3] as usize;
    let buffered = memory[4] as usize;
    let written = memory[5] as usize;
    Place {
        phase: memory[0],
        all,
        count: memory[2],
        from,
        buffered,
        written,
    }
}

fn bit_of(b: bool) -> u64
    ensures { result ≡ bit_of b }
{
    if b { 1 } else { 0 }
}

pub fn store(memory: &mut [u64], p: Place)
    requires { numbers ≤ length memory.old }
    ensures { place_in memory.new ≡ p }
{
    let all = bit_of(p.all);
    memory[0] = p.phase;
    memory[1] = all;
    memory[2] = p.count;
    memory[3] = p.from as u64;
    memory[4] = p.buffered as u64;
    memory[5] = p.written as u64;
}

// Whether there is room for the words of a run, for what is read, and for the longest line.
pub fn is_room_enough(words: usize, input: usize, out: usize) -> bool
    ensures { result ≡ enough_room words input out }
{
    if words != WORDS {
        return false;
    }
    if input < LEAST_INPUT {
        return false;
    }
    LONGEST_LINE <= out
}

// Whether the numbers lie inside buffers of these sizes.
pub fn is_inside(p: Place, input: usize, out: usize) -> bool
    ensures { result ≡ inside p input out }
{
    if MOST_RECORDS <= p.count {
        return false;
    }
    if out < p.written {
        return false;
    }
    if input < p.buffered {
        return false;
    }
    if input - p.buffered < p.from {
        return false;
    }
    if p.phase == PRINTING {
        return true;
    }
    if RECORD <= p.buffered {
        return false;
    }
    p.from == 0
}
