// The program `record` as a machine, without input or output: what the system answered goes in, what to ask for next comes out. Its states are defined in
// `specs/Machine`, with the promises over every list of answers in `specs/Promised`; which state the lent numbers and buffers stand for, in `specs/Lent`.

#![tactic(auto)]

// calls.rt: a record's call through the recorder
mod calls;

// block.rt: the records of a block
mod block;

// text.rt: the line of a refused record
mod text;

// marks.rt: the numbers of a state
mod marks;

// going.rt: how the machine goes on, for each kind of answer
mod going;

ghost use Rattle.std.specs.Prelude.{◌≡◌};
ghost use Rattle.laws.specs.Basics.{true, length};
ghost use Rattle.machines.specs.{Machines.stepped, Forms.answer_of};
ghost use Rattle.machine_record.specs.{Machine.machine, Machine.counting, Lent.has_room_of, Lent.state_of, Lent.place_of, Lent.StandsFor};

use machines::{Answer, Request};
use words::WORDS;

// The bytes of the longest word that is looked at, and of a block (longest_word, block_bytes in specs/Machine).
const LONGEST_WORD: usize = 4096;

const BLOCK_BYTES: usize = 4096;

// No line of a record is longer (longest_line in specs/Played).
const LONGEST_LINE: usize = 66;

// How many bytes a caller lends: for a word or a block after what is kept of a record (input_size in specs/Lent), and for the lines of a block (block_lines in
// specs/Played).
pub const INPUT_SIZE: usize = BLOCK_BYTES + 3;

pub const BLOCK_LINES: usize = LONGEST_LINE * (BLOCK_BYTES / 4);

pub fn has_room(memory: usize, words: usize, input: usize, out: usize, lines: usize) -> bool
    ensures { result ≡ has_room_of memory words input out lines }
{
    (6 <= memory)
        & ((words == WORDS)
            & ((INPUT_SIZE <= input) & ((BLOCK_LINES <= out) & (BLOCK_LINES <= lines))))
}

// The first state.
pub fn begin(memory: &mut [u64], words: &[u16], input: &[u8], out: &[u8], lines: &[u8]) -> Request
    requires { has_room_of (length memory.old) (length words.now) (length input.now) (length out.now) (length lines.now) ≡ true }
    ensures { StandsFor memory.new words.now input.now out.now lines.now result counting }
{
    let first = marks::at(marks::COUNTING, 0);
    marks::put(memory, first);
    marks::request(first)
}

// What the system answered goes in, what to ask for next comes out.
pub fn step(
    memory: &mut [u64],
    words: &mut [u16],
    input: &mut [u8],
    out: &mut [u8],
    lines: &mut [u8],
    answer: Answer,
) -> Request
    ensures { StandsFor memory.new words.new input.new out.new lines.new result (stepped machine (state_of memory.old words.old input.old out.old lines.old) (answer_of answer (place_of memory.old) input.old)) }
{
    if !has_room(
        memory.len(),
        words.len(),
        input.len(),
        out.len(),
        lines.len(),
    ) {
        return Request::Stop;
    }
    let m = marks::read(memory);
    if !marks::in_bounds(m, out.len()) {
        return Request::Stop;
    }
    let next = going::on(m, words, input, out, lines, answer);
    marks::put(memory, next);
    marks::request(next)
}
