// The program `judge` as a machine, without input or output: what the system answered goes in, what to ask for next comes out. Its states are defined in `specs/Judging`,
// with the theorem over every list of answers; which state the lent numbers and buffers stand for, in `specs/Words`.

#![tactic(auto)]

// text.rt: the line of a verdict
pub mod text;

ghost use Rattle.std.specs.Prelude.{◌≡◌, ◌≤◌};
ghost use Rattle.laws.specs.Basics.{List, [], ℕ, length, take, set};
ghost use Rattle.machines.specs.{Machines.stepped, Forms.answer_of};
ghost use Rattle.machine_judge.specs.Judging.{most_read, wanted, settled, Reading, Printing, Failing, Stopped, printing, onward, judging};
ghost use Rattle.machine_judge.specs.{Words.EnoughRoom, Words.lacks_room_of, Words.state_of, Words.place_of, Words.StandsFor, Text.longest_verdict};

use machines::heard::Taken;
use machines::{Answer, Request, heard};
use model::PROCESSES;
use theory_patterns::MOST_JUDGED;

// The phases. Every other number stands for a machine that has stopped.
const READING: u64 = 0;

const PRINTING: u64 = 1;

const FAILING: u64 = 2;

const STOPPED: u64 = 3;

// How many bytes a caller lends: for the first byte and one record more than a trace may have (most_read in specs/Judging), and for the longest line (longest_verdict in
// specs/Text).
pub const MOST_READ: usize = 1 + 4 * (MOST_JUDGED + 1);

pub const LONGEST_VERDICT: usize = 96;

// The greatest count of processes, as the first byte says it.
const MOST: u8 = PROCESSES as u8;

// Whether one of the lent lists is too short for every run.
pub fn lacks_room(memory: usize, input: usize, out: usize) -> bool
    ensures { result ≡ lacks_room_of memory input out }
{
    if memory < 2 {
        return true;
    }
    if input < MOST_READ {
        return true;
    }
    out < LONGEST_VERDICT
}

fn put(memory: &mut [u64], phase: u64, count: usize)
    requires { 2 ≤ length memory.old }
    ensures { memory.new ≡ set (set memory.old 0 phase) 1 count }
{
    memory[0] = phase;
    memory[1] = count as u64;
}

fn stop(memory: &mut [u64]) -> Request
    requires { 2 ≤ length memory.old }
    ensures { (input out : List ℕ) → StandsFor memory.new input out result Stopped }
{
    put(memory, STOPPED, 0);
    Request::Stop
}

// How many bytes are asked for where that many were read.
fn wanted(buffered: usize) -> usize
    requires { buffered ≤ most_read }
    ensures { result ≡ wanted buffered }
{
    if buffered == 0 {
        return 1;
    }
    MOST_READ - buffered
}

// More bytes are asked for, after those that were read.
fn read_more(memory: &mut [u64], input: &[u8], out: &[u8], buffered: usize) -> Request
    requires { EnoughRoom (length memory.old) (length input.now) (length out.now) × (buffered ≤ most_read) }
    ensures { StandsFor memory.new input.now out.now result (Reading (take buffered input.now)) }
{
    put(memory, READING, buffered);
    let most = wanted(buffered);
    Request::Read(buffered, most)
}

// The verdict on what was read is printed.
fn print_verdict(memory: &mut [u64], input: &[u8], out: &mut [u8], buffered: usize) -> Request
    requires { EnoughRoom (length memory.old) (length input.now) (length out.old) × (buffered ≤ most_read) }
    ensures { StandsFor memory.new input.now out.new result (printing (take buffered input.now)) }
{
    let verdict = library_judge::judge(&input[..buffered]);
    let size = text::write_verdict(out, verdict);
    put(memory, PRINTING, size);
    Request::Write(size)
}

// What failed is reported.
fn fail(memory: &mut [u64], input: &[u8], out: &mut [u8], name: &[u8]) -> Request
    requires { EnoughRoom (length memory.old) (length input.now) (length out.old) × (length name.now ≤ longest_verdict) }
    ensures { StandsFor memory.new input.now out.new result (Failing name.now) }
{
    let size = machines::programs::text::write_word(out, 0, name);
    put(memory, FAILING, size);
    Request::Fail(size)
}

// Whether no byte that follows can change the verdict on the first bytes of the input.
fn is_settled(input: &[u8], buffered: usize) -> bool
    requires { buffered ≤ length input.now }
    ensures { result ≡ settled (take buffered input.now) }
{
    if buffered == 0 {
        return false;
    }
    if input[0] < 1 {
        return true;
    }
    if MOST < input[0] {
        return true;
    }
    MOST_READ <= buffered
}

// More bytes are read unless the verdict is settled.
fn go_on(memory: &mut [u64], input: &[u8], out: &mut [u8], buffered: usize) -> Request
    requires { EnoughRoom (length memory.old) (length input.now) (length out.old) × (buffered ≤ most_read) }
    ensures { StandsFor memory.new input.now out.new result (onward (take buffered input.now)) }
{
    if is_settled(input, buffered) {
        return print_verdict(memory, input, out, buffered);
    }
    read_more(memory, input, out, buffered)
}

// A read is answered.
fn after_read(
    memory: &mut [u64],
    input: &[u8],
    out: &mut [u8],
    buffered: usize,
    answer: Answer,
) -> Request
    requires { EnoughRoom (length memory.old) (length input.now) (length out.old) × (buffered ≤ most_read) }
    ensures { StandsFor memory.new input.now out.new result (stepped judging (Reading (take buffered input.now)) (answer_of answer buffered input.now)) }
{
    let taken = heard::read(answer, wanted(buffered));
    match taken {
        Taken::Brought(size) => go_on(memory, input, out, buffered + size),
        Taken::Ended => print_verdict(memory, input, out, buffered),
        Taken::Failed => fail(memory, input, out, b"judge: standard input"),
    }
}

// The line is written, or not.
fn after_write(
    memory: &mut [u64],
    input: &[u8],
    out: &mut [u8],
    line: usize,
    answer: Answer,
) -> Request
    requires { EnoughRoom (length memory.old) (length input.now) (length out.old) }
    ensures { StandsFor memory.new input.now out.new result (stepped judging (Printing (take line out.old)) (answer_of answer line input.now)) }
{
    if heard::is_done(answer) {
        return stop(memory);
    }
    fail(memory, input, out, b"judge: standard output")
}

// The first state.
pub fn begin(memory: &mut [u64], input: &[u8], out: &[u8]) -> Request
    requires { EnoughRoom (length memory.old) (length input.now) (length out.now) }
    ensures { StandsFor memory.new input.now out.now result (Reading []) }
{
    read_more(memory, input, out, 0)
}

// What the system answered goes in, what to ask for next comes out.
pub fn step(memory: &mut [u64], input: &[u8], out: &mut [u8], answer: Answer) -> Request
    ensures { StandsFor memory.new input.now out.new result (stepped judging (state_of memory.old input.now out.old) (answer_of answer (place_of memory.old) input.now)) }
{
    if lacks_room(memory.len(), input.len(), out.len()) {
        return Request::Stop;
    }
    let phase = memory[0];
    let count = memory[1] as usize;
    if phase == READING {
        if MOST_READ < count {
            return stop(memory);
        }
        return after_read(memory, input, out, count, answer);
    }
    if phase == PRINTING {
        if out.len() < count {
            return stop(memory);
        }
        return after_write(memory, input, out, count, answer);
    }
    stop(memory)
}
