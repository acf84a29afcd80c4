// The program `merge` as a machine, without input or output: what the system answered goes in, what to ask for next comes out. Its states are defined in `specs/Merging`,
// the theorem over every list of answers in `specs/Promised`; which state the lent numbers and buffers stand for, in `specs/Words`.

#![tactic(auto)]

// marks.rt: the numbers of a state
mod marks;

// going.rt: how the machine goes on, for each kind of answer
mod going;

ghost use Rattle.std.specs.Prelude.{◌≡◌};
ghost use Rattle.laws.specs.Basics.{length};
ghost use Rattle.machines.specs.{Machines.stepped, Forms.answer_of};
ghost use Rattle.machine_merge.specs.Merging.{Counting, merging};
ghost use Rattle.machine_merge.specs.Words.{EnoughRoom, lacks_room_of, state_of, place_of, StandsFor};

use machines::{Answer, Request};

// How many bytes a caller lends: for the longest word, and for both halves in one trace (longest_trace in specs/Words).
pub const LONGEST_WORD: usize = marks::LONGEST_WORD;

pub const LONGEST_TRACE: usize = 2 * marks::MOST_KEPT;

// Whether one of the lent lists is too short for every run.
pub fn lacks_room(memory: usize, input: usize, out: usize) -> bool
    ensures { result ≡ lacks_room_of memory input out }
{
    if memory < 7 {
        return true;
    }
    if input < LONGEST_WORD {
        return true;
    }
    out < LONGEST_TRACE
}

// The first state.
pub fn begin(memory: &mut [u64], input: &[u8], out: &[u8]) -> Request
    requires { EnoughRoom (length memory.old) (length input.now) (length out.now) }
    ensures { StandsFor memory.new input.now out.now result Counting }
{
    let first = marks::at(marks::COUNTING, 0);
    marks::put(memory, first);
    marks::request(first)
}

// What the system answered goes in, what to ask for next comes out.
pub fn step(memory: &mut [u64], input: &[u8], out: &mut [u8], answer: Answer) -> Request
    ensures { StandsFor memory.new input.now out.new result (stepped merging (state_of memory.old input.now out.old) (answer_of answer (place_of memory.old) input.now)) }
{
    if lacks_room(memory.len(), input.len(), out.len()) {
        return Request::Stop;
    }
    let m = marks::read(memory);
    if !marks::in_bounds(m, out.len()) {
        return Request::Stop;
    }
    let next = going::on(m, input, out, answer);
    marks::put(memory, next);
    marks::request(next)
}
