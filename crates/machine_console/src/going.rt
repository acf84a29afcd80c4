// How the machine goes on: what an answer comes to in each state. Each function hands back the numbers of the next one.
ghost use Rattle.std.specs.Prelude.{◌≡◌, ◌+◌, ◌≤◌, ◌<◌};
ghost use Rattle.laws.specs.Basics.{List, [], ℕ, length, take};
ghost use Rattle.words.specs.Layout.{run_of, state_size};
ghost use Rattle.machines.specs.{Machines.stepped, Forms.answer_of};
ghost use Rattle.machine_console.specs.{Text.line_text, Replied.longest_line, Lent.most_done_of, Lent.between_of, Lent.state_in, Lent.Arrives};
ghost use Rattle.machine_console.specs.Consoling.{most_calls, Opening, Reading, Printing, Ending, Failing, Stopped, begun, called, onward, at_end, further_on, consoling};

use crate::marks::Marks;
use crate::{line, making, marks};
use listing::Summary;
use machines::heard::Taken;
use machines::{Answer, heard};
use model::PROCESSES;

fn stop() -> Marks
    ensures { (words input out : List ℕ) → Arrives result words input out Stopped }
{
    marks::at(marks::STOPPED, 0)
}

// What failed is reported.
fn fail(out: &mut [u8], name: &[u8]) -> Marks
    requires { length name.now ≤ length out.old }
    ensures { (words input : List ℕ) → Arrives result words input out.new (Failing name.now) }
{
    let size = machines::programs::text::write_word(out, 0, name);
    marks::at(marks::FAILING, size)
}

// The last line, that of a refusal.
fn end_refused(out: &mut [u8], number: u64, refused: u64) -> Marks
    requires { longest_line ≤ length out.old }
    ensures { (words input : List ℕ) → Arrives result words input out.new (Ending (line_text number refused [])) }
{
    let size = line::write_refused(out, number, refused);
    marks::at(marks::ENDING, size)
}

// The operator's start of n processes.
fn start(words: &mut [u16], n: u8, out: &mut [u8]) -> Marks
    requires { (length words.old ≡ state_size) × (longest_line ≤ length out.old) }
    ensures { (input : List ℕ) → Arrives result words.new input out.new (begun n) }
{
    let block_counts = [1u32; PROCESSES];
    let answer = library_console::calls::start(0, 0, words, n as usize, &block_counts);
    let summary = Summary::from(answer);
    let refused = summary.number();
    if refused != 0 {
        return end_refused(out, 0, refused as u64);
    }
    marks::at(marks::READING, 0)
}

fn after_first(
    words: &mut [u16],
    input: &[u8],
    out: &mut [u8],
    kept: usize,
    answer: Answer,
) -> Marks
    requires { (length words.old ≡ state_size) × (8 ≤ length input.now) × (kept ≤ 7) × (longest_line ≤ length out.old) }
    ensures { Arrives result words.new input.now out.new (stepped consoling Opening (answer_of answer kept input.now)) }
{
    let taken = heard::read(answer, 1);
    match taken {
        Taken::Brought(_) => start(words, input[kept], out),
        Taken::Ended => end_refused(out, 0, 12),
        Taken::Failed => fail(out, b"console: standard input"),
    }
}

// No call is read after the last one.
fn to_read(m: Marks) -> Marks
    requires { m.kept ≤ 7 }
    ensures { (words input out : List ℕ) → Arrives result words input out (further_on (between_of m words input)) }
{
    if marks::MOST_CALLS <= m.done {
        return stop();
    }
    Marks {
        phase: marks::READING,
        done: m.done,
        kept: m.kept,
        size: 0,
    }
}

// The line of a call is written, or not.
fn after_line(m: Marks, out: &mut [u8], answer: Answer) -> Marks
    requires { (m.kept ≤ 7) × (longest_line ≤ length out.old) }
    ensures { (words input : List ℕ) (at : ℕ) → Arrives result words input out.new (stepped consoling (Printing (take m.size out.old) (between_of m words input)) (answer_of answer at input)) }
{
    if heard::is_done(answer) {
        return to_read(m);
    }
    fail(out, b"console: standard output")
}

// The last line is written, or not.
fn after_last(size: usize, out: &mut [u8], answer: Answer) -> Marks
    requires { longest_line ≤ length out.old }
    ensures { (words input : List ℕ) (at : ℕ) → Arrives result words input out.new (stepped consoling (Ending (take size out.old)) (answer_of answer at input)) }
{
    if heard::is_done(answer) {
        return stop();
    }
    fail(out, b"console: standard output")
}

// Bytes left over are refused with 13.
fn to_end(m: Marks, out: &mut [u8]) -> Marks
    requires { (m.done < most_calls) × (longest_line ≤ length out.old) }
    ensures { (words input : List ℕ) → m.kept ≤ length input → Arrives result words input out.new (at_end (between_of m words input)) }
{
    if m.kept == 0 {
        return stop();
    }
    end_refused(out, m.done + 1, 13)
}

fn first_eight(input: &[u8]) -> [u8; 8]
    requires { 8 ≤ length input.now }
    ensures { result ≡ take 8 input.now }
{
    [
        input[0], input[1], input[2], input[3], input[4], input[5], input[6], input[7],
    ]
}

// Eight bytes are a call, which is made.
fn make_call(done: u64, words: &mut [u16], input: &[u8], out: &mut [u8]) -> Marks
    requires { (done < most_calls) × (length words.old ≡ state_size) × (8 ≤ length input.now) × (longest_line ≤ length out.old) }
    ensures { Arrives result words.new input.now out.new (called (record { done = done; run = run_of words.old; buffered = take 8 input.now })) }
{
    let bytes = first_eight(input);
    let number = done + 1;
    let size = making::make(words, number, bytes, out);
    Marks {
        phase: marks::PRINTING,
        done: number,
        kept: 0,
        size,
    }
}

// More bytes are read until there are eight.
fn go_on(done: u64, buffered: usize, words: &mut [u16], input: &[u8], out: &mut [u8]) -> Marks
    requires { (done < most_calls) × (buffered ≤ 8) × (length words.old ≡ state_size) × (8 ≤ length input.now) × (longest_line ≤ length out.old) }
    ensures { Arrives result words.new input.now out.new (onward (record { done = done; run = run_of words.old; buffered = take buffered input.now })) }
{
    if 8 <= buffered {
        return make_call(done, words, input, out);
    }
    Marks {
        phase: marks::READING,
        done,
        kept: buffered,
        size: 0,
    }
}

fn after_read(m: Marks, words: &mut [u16], input: &[u8], out: &mut [u8], answer: Answer) -> Marks
    requires { (m.done < most_calls) × (m.kept ≤ 7) × (length words.old ≡ state_size) × (8 ≤ length input.now) × (longest_line ≤ length out.old) }
    ensures { Arrives result words.new input.now out.new (stepped consoling (Reading (between_of m words.old input.now)) (answer_of answer m.kept input.now)) }
{
    let taken = heard::read(answer, 8 - m.kept);
    match taken {
        Taken::Brought(size) => go_on(m.done, m.kept + size, words, input, out),
        Taken::Ended => to_end(m, out),
        Taken::Failed => fail(out, b"console: standard input"),
    }
}

// The numbers of the state that an answer leads to.
pub fn on(m: Marks, words: &mut [u16], input: &[u8], out: &mut [u8], answer: Answer) -> Marks
    requires { (m.done ≤ most_done_of m.phase) × (m.kept ≤ 7) × (length words.old ≡ state_size) × (8 ≤ length input.now) × (longest_line ≤ length out.old) }
    ensures { Arrives result words.new input.now out.new (stepped consoling (state_in m words.old input.now out.old) (answer_of answer m.kept input.now)) }
{
    let phase = m.phase;
    match phase {
        1 => after_first(words, input, out, m.kept, answer),
        2 => after_read(m, words, input, out, answer),
        3 => after_line(m, out, answer),
        4 => after_last(m.size, out, answer),
        _ => stop(),
    }
}
