// The numbers that a caller lends for the state, read and put.
ghost use Rattle.std.specs.Prelude.{◌≡◌, ◌+◌, ◌*◌, ◌≤◌};
ghost use Rattle.laws.specs.Basics.{length};
ghost use Rattle.machine_merge.specs.{Buffered.buffered_size, Buffered.wanted, Buffered.most_kept_of, Merging.longest_name};
ghost use Rattle.machine_merge.specs.Words.{marks_of, at_phase, in_bounds_of, name_at, half_at_of, read_to_of, word_at, asks_for};

use library_halves::MOST_OF_HALF;
use machines::Request;
use machines::programs::numbers::GREATEST;

// The phase; 0 for the first half, every other number for the second; the set; how many bytes are held of the first half; how long the name of the file is; how many
// bytes of it were read; how many are to be written or reported.
#[derive(Clone, Copy)]
pub struct Marks {
    pub phase: u64,
    pub half: u64,
    pub set: u64,
    pub first: usize,
    pub name: usize,
    pub count: usize,
    pub size: usize,
}

pub const COUNTING: u64 = 1;

pub const SETTING: u64 = 2;

pub const NAMING: u64 = 3;

pub const OPENING: u64 = 4;

pub const READING: u64 = 5;

pub const WRITING: u64 = 6;

pub const REPORTING: u64 = 7;

pub const FAILING: u64 = 8;

pub const STOPPED: u64 = 0;

// The bytes of the longest word that the system hands to a program, and of the longest name of a file (longest_word, longest_name in specs/Merging).
pub const LONGEST_WORD: usize = 131072;

pub const LONGEST_NAME: usize = 4096;

// The bytes of a first byte and of one record more than a half may have.
const TOO_MANY_RECORDS: usize = 1 + 4 * (MOST_OF_HALF + 1);

// So many bytes of a half are kept at most (most_kept_of in specs/Buffered): those, and what may be left over.
pub const MOST_KEPT: usize = TOO_MANY_RECORDS + 3;

// Where the second file's name stands, after the first one and what is kept of the first half; and the second half.
const SECOND_NAME: usize = LONGEST_NAME + MOST_KEPT;

pub const SECOND_HALF: usize = SECOND_NAME + LONGEST_NAME;

// A half is read no further than this (most_counted in specs/Buffered).
pub const MOST_COUNTED: usize = 9000000000000000000;

// A phase that is about no file.
pub fn at(phase: u64, size: usize) -> Marks
    ensures { result ≡ at_phase phase size }
{
    Marks {
        phase,
        half: 0,
        set: 0,
        first: 0,
        name: 0,
        count: 0,
        size,
    }
}

// Whether the numbers are those of a state.
pub fn in_bounds(m: Marks, out: usize) -> bool
    ensures { result ≡ in_bounds_of m out }
{
    if GREATEST < m.set {
        return false;
    }
    if MOST_KEPT < m.first {
        return false;
    }
    if LONGEST_NAME < m.name {
        return false;
    }
    if MOST_COUNTED <= m.count {
        return false;
    }
    m.size <= out
}

pub fn read(memory: &[u64]) -> Marks
    requires { 7 ≤ length memory.now }
    ensures { result ≡ marks_of memory.now }
{
    Marks {
        phase: memory[0],
        half: memory[1],
        set: memory[2],
        first: memory[3] as usize,
        name: memory[4] as usize,
        count: memory[5] as usize,
        size: memory[6] as usize,
    }
}

pub fn put(memory: &mut [u64], m: Marks)
    requires { 7 ≤ length memory.old }
    ensures { marks_of memory.new ≡ m }
{
    memory[0] = m.phase;
    memory[1] = m.half;
    memory[2] = m.set;
    memory[3] = m.first as u64;
    memory[4] = m.name as u64;
    memory[5] = m.count as u64;
    memory[6] = m.size as u64;
}

fn word_at(half: u64) -> usize
    ensures { result ≡ word_at half }
{
    if half == 0 {
        return 1;
    }
    2
}

// The place of a file's name.
pub fn name_at(half: u64) -> usize
    ensures { (result ≡ name_at half) × (result ≤ longest_name + most_kept_of) }
{
    if half == 0 {
        return 0;
    }
    SECOND_NAME
}

// The place of its bytes,
fn half_at(half: u64) -> usize
    ensures { (result ≡ half_at_of half) × (result ≤ 2 * longest_name + most_kept_of) }
{
    name_at(half) + LONGEST_NAME
}

// and of those that come next.
fn read_to(half: u64, count: usize) -> usize
    ensures { result ≡ read_to_of half count }
{
    if MOST_KEPT < count {
        return half_at(half) + MOST_KEPT;
    }
    half_at(half) + count
}

// How many bytes are asked for where that many were read.
pub fn wanted(total: usize) -> usize
    ensures { result ≡ wanted total }
{
    if total < MOST_KEPT {
        return MOST_KEPT - total;
    }
    MOST_KEPT
}

// How many bytes are held of a half of that many.
pub fn buffered_size(total: usize) -> usize
    ensures { (result ≡ buffered_size total) × (result ≤ most_kept_of) }
{
    if total <= MOST_KEPT {
        return total;
    }
    TOO_MANY_RECORDS + (total - 1) % 4
}

// What the machine asks for.
pub fn request(m: Marks) -> Request
    ensures { result ≡ asks_for m }
{
    let phase = m.phase;
    match phase {
        COUNTING => Request::Count,
        SETTING => Request::Argument(3, 0, LONGEST_WORD),
        NAMING => Request::Argument(word_at(m.half), name_at(m.half), LONGEST_NAME),
        OPENING => Request::Open(m.name),
        READING => Request::Read(read_to(m.half, m.count), wanted(m.count)),
        WRITING => Request::Write(m.size),
        REPORTING => Request::Say(m.size),
        FAILING => Request::Fail(m.size),
        _ => Request::Stop,
    }
}
