// The program `console` as a machine, without input or output: what the system answered goes in, what to ask for next comes out. Its states are defined in `specs/Consoling`,
// with the theorem over every list of answers; which state the lent numbers and buffers stand for, in `specs/Lent`.

#![tactic(auto)]

// text.rt: the parts of a line
mod text;

// line.rt: the line of a call
mod line;

// calls.rt: each call on the words
mod calls;

// making.rt: a call with its line
mod making;

// marks.rt: the numbers of a state
mod marks;

// going.rt: how the machine goes on, for each kind of answer
mod going;

// script.rt: a script of console calls (document 02, Note 13): a first byte, the count of processes, and calls of eight bytes each, numbers with their high byte first.
pub mod script;

ghost use Rattle.std.specs.Prelude.{◌≡◌};
ghost use Rattle.laws.specs.Basics.{true, length};
ghost use Rattle.machines.specs.{Machines.stepped, Forms.answer_of};
ghost use Rattle.machine_console.specs.{Consoling.consoling, Consoling.Opening, Lent.has_room_of, Lent.state_of, Lent.place_of, Lent.StandsFor};

use machines::{Answer, Request};
use words::WORDS;

// How many bytes a caller lends: for a call (call_size in specs/Text), and for the longest line (longest_line in specs/Replied).
pub const CALL_SIZE: usize = 8;

pub const LONGEST_LINE: usize = 12000;

// Whether all that is lent is long enough.
pub fn has_room(memory: usize, words: usize, input: usize, out: usize) -> bool
    ensures { result ≡ has_room_of memory words input out }
{
    (4 <= memory) & ((words == WORDS) & ((CALL_SIZE <= input) & (LONGEST_LINE <= out)))
}

// The first state.
pub fn begin(memory: &mut [u64], words: &[u16], input: &[u8], out: &[u8]) -> Request
    requires { has_room_of (length memory.old) (length words.now) (length input.now) (length out.now) ≡ true }
    ensures { StandsFor memory.new words.now input.now out.now result Opening }
{
    let first = marks::at(marks::OPENING, 0);
    marks::put(memory, first);
    marks::request(first)
}

// What the system answered goes in, what to ask for next comes out.
pub fn step(
    memory: &mut [u64],
    words: &mut [u16],
    input: &[u8],
    out: &mut [u8],
    answer: Answer,
) -> Request
    ensures { StandsFor memory.new words.new input.now out.new result (stepped consoling (state_of memory.old words.old input.now out.old) (answer_of answer (place_of memory.old) input.now)) }
{
    if !has_room(memory.len(), words.len(), input.len(), out.len()) {
        return Request::Stop;
    }
    let m = marks::read(memory);
    if !marks::in_bounds(m, out.len()) {
        return Request::Stop;
    }
    let next = going::on(m, words, input, out, answer);
    marks::put(memory, next);
    marks::request(next)
}
