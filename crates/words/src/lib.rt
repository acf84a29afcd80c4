// The state of a run as 6,464 words of 16 bits that the caller lends. specs/Layout says which run words stand for; here rows and numbers are read out of words
// and put into them. Callers pass all the words and a place, so that one borrow serves every function. A row has 16 words whatever the count of processes.

#![tactic(auto)]

ghost use Rattle.std.specs.Prelude.{◌≡◌, ◌∷◌, ◌+◌, ◌≤◌, ◌<◌, Some};
ghost use Rattle.laws.specs.Basics.{[], length};
ghost use Rattle.model.specs.Words.{most_interval, most_processes};
ghost use Rattle.words.specs.Layout.{interval_of, index_of_def, pin_of_def, row_in, vector_in, wide2, wide4};
ghost use Rattle.words.specs.Puts.{puts, row_put, vector_put, zero_put, puts2, puts4};

use model::{CheckpointIndex, Interval, MESSAGES, PROCESSES, Pin};

// How many words a state is: 6,464 (state_size in specs/Layout).
pub const WORDS: usize = places::CARRIED + places::ROW * MESSAGES;

// places.rt: where each thing stands
pub mod places;

// rows.rt: leaves on one process's part of the state, by value: its vector, and the rows as a state holds them
pub mod rows;

// messages.rt: the messages under way, in 64 places of the words
pub mod messages;

// What a word of a vector, of an index and of the pins stands for: here alone a number becomes one of these.
pub fn interval_of(x: u16) -> Interval
    ensures { result ≡ interval_of x }
{
    Interval(x)
}

pub fn index_of(x: u16) -> CheckpointIndex
    requires { 1 ≤ x }
    ensures { result ≡ index_of_def x }
{
    CheckpointIndex(x - 1)
}

pub fn pin_of(x: u16) -> Pin
    ensures { result ≡ pin_of_def x }
{
    if x == 0 { None } else { Some(index_of(x)) }
}

// The word of a pin, or of a kept checkpoint, by its index.
pub fn pin_word(index: CheckpointIndex) -> u16
    requires { index.0 < most_interval }
    ensures { (result ≡ index.0 + 1) × (pin_of_def result ≡ Some index) × (index_of_def result ≡ index) }
{
    index.0 + 1
}

pub fn row_at(w: &[u16], at: usize) -> [u16; PROCESSES]
    requires { at + most_processes ≤ length w.now }
    ensures { result ≡ row_in w.now at }
{
    let mut r = [0u16; PROCESSES];
    for f in 0..PROCESSES {
        let x = w[at + f];
        r[f] = x;
    }
    r
}

pub fn vector_at(w: &[u16], at: usize) -> [Interval; PROCESSES]
    requires { at + most_processes ≤ length w.now }
    ensures { result ≡ vector_in w.now at }
{
    let mut v = [Interval(0); PROCESSES];
    for f in 0..PROCESSES {
        let x = interval_of(w[at + f]);
        v[f] = x;
    }
    v
}

fn wide_word(x: u16) -> u32
    ensures { (result ≡ x) × (result < 65536) }
{
    x as u32
}

fn wider_word(x: u16) -> u64
    ensures { (result ≡ x) × (result < 65536) }
{
    x as u64
}

// A number of two words and one of four, the lowest word first.
pub fn wide2(w: &[u16], at: usize) -> u32
    requires { at + 2 ≤ length w.now }
    ensures { result ≡ wide2 w.now at }
{
    let low = wide_word(w[at]);
    let high = wide_word(w[at + 1]);
    low + 65536 * high
}

pub fn wide4(w: &[u16], at: usize) -> u64
    requires { at + 4 ≤ length w.now }
    ensures { result ≡ wide4 w.now at }
{
    let a = wider_word(w[at]);
    let b = wider_word(w[at + 1]);
    let c = wider_word(w[at + 2]);
    let d = wider_word(w[at + 3]);
    a + 65536 * b + 4294967296 * c + 281474976710656 * d
}

pub fn put_row(w: &mut [u16], at: usize, r: [u16; PROCESSES])
    requires { at + most_processes ≤ length w.old }
    ensures { w.new ≡ puts w.old (row_put at r ∷ []) }
{
    for f in 0..PROCESSES {
        let x = r[f];
        w[at + f] = x;
    }
}

pub fn put_vector(w: &mut [u16], at: usize, v: [Interval; PROCESSES])
    requires { at + most_processes ≤ length w.old }
    ensures { w.new ≡ puts w.old (vector_put at v ∷ []) }
{
    for f in 0..PROCESSES {
        let x = v[f];
        w[at + f] = x.0;
    }
}

pub fn clear_row(w: &mut [u16], at: usize)
    requires { at + most_processes ≤ length w.old }
    ensures { w.new ≡ puts w.old (zero_put at ∷ []) }
{
    for f in 0..PROCESSES {
        w[at + f] = 0;
    }
}

pub fn put2(w: &mut [u16], at: usize, x: u32)
    requires { at + 2 ≤ length w.old }
    ensures { w.new ≡ puts w.old (puts2 at x) }
{
    w[at] = (x % 65536) as u16;
    w[at + 1] = (x / 65536) as u16;
}

pub fn put4(w: &mut [u16], at: usize, x: u64)
    requires { at + 4 ≤ length w.old }
    ensures { w.new ≡ puts w.old (puts4 at x) }
{
    w[at] = (x % 65536) as u16;
    w[at + 1] = (x / 65536 % 65536) as u16;
    w[at + 2] = (x / 4294967296 % 65536) as u16;
    w[at + 3] = (x / 281474976710656) as u16;
}
