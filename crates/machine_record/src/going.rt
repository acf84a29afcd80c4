// How the machine goes on: the numbers of the state that an answer leads to. The words and buffers are those of the state with them.
ghost use Rattle.std.specs.Prelude.{◌≡◌, ◌+◌, ◌-◌, ◌*◌, ◌≤◌};
ghost use Rattle.laws.specs.Basics.{List, ℕ, min, length, take};
ghost use Rattle.whole_runs.specs.Listing.{most_records};
ghost use Rattle.words.specs.Layout.{state_size};
ghost use Rattle.machines.specs.{programs.Numbers.number_in, Machines.stepped, Forms.answer_of};
ghost use Rattle.machine_record.specs.{Recorded.refused_line, Recorded.end_line, Played.longest_line, Played.block_lines};
ghost use Rattle.machine_record.specs.Machine.{machine, counting, naming, beginning, writing, reading, ending, failing, stopped, sized, begun, to_read_of, to_report, to_end_of, block_taken, block_bytes};
ghost use Rattle.machine_record.specs.Lent.{position_of, state_in, Arrives, input_size, longest_trace};

use crate::marks::Marks;
use crate::{LONGEST_WORD, block, marks, text};
use listing::Summary;
use machines::heard::Taken;
use machines::{Answer, heard};
use model::PROCESSES;
use whole_runs::MOST_RECORDS;

fn stop() -> Marks
    ensures { (words input out lines : List ℕ) → Arrives result words input out lines stopped }
{
    marks::at(marks::STOPPED, 0)
}

// A text is reported, and then nothing more.
fn end_with(out: &mut [u8], text: &[u8]) -> Marks
    requires { length text.now ≤ length out.old }
    ensures { (words input lines : List ℕ) → Arrives result words input out.new lines (ending text.now) }
{
    let size = machines::programs::text::write_word(out, 0, text);
    Marks {
        phase: marks::ENDING,
        left: 0,
        done: 0,
        kept: 0,
        size,
        pending: 0,
    }
}

// What failed is reported, and then nothing more.
fn fail(out: &mut [u8], name: &[u8]) -> Marks
    requires { length name.now ≤ length out.old }
    ensures { (words input lines : List ℕ) → Arrives result words input out.new lines (failing name.now) }
{
    let size = machines::programs::text::write_word(out, 0, name);
    Marks {
        phase: marks::FAILING,
        left: 0,
        done: 0,
        kept: 0,
        size,
        pending: 0,
    }
}

// The line of a refused record is reported, and then nothing more.
fn end_refused(out: &mut [u8], number: u64, x: u64) -> Marks
    requires { longest_line ≤ length out.old }
    ensures { (words input lines : List ℕ) → Arrives result words input out.new lines (ending (refused_line number x)) }
{
    let size = text::write_refused(out, 0, number, x);
    Marks {
        phase: marks::ENDING,
        left: 0,
        done: 0,
        kept: 0,
        size,
        pending: 0,
    }
}

// The largest buffer that an argument may ask for (largest_buffer in specs/Machine).
const LARGEST_BUFFER: u64 = 1048576;

fn after_count(out: &mut [u8], answer: Answer) -> Marks
    requires { block_lines ≤ length out.old }
    ensures { (words input lines : List ℕ) (at : ℕ) → Arrives result words input out.new lines (stepped machine counting (answer_of answer at input)) }
{
    match answer {
        Answer::Number(count) => {
            if count < 2 {
                return marks::at(marks::BEGINNING, marks::LONGEST_TRACE);
            }
            if count == 2 {
                return marks::at(marks::NAMING, 0);
            }
            end_with(out, b"usage: record [BYTES], at most 1048576\n")
        }
        Answer::Bytes(_) => fail(out, b"record: arguments"),
        Answer::End => fail(out, b"record: arguments"),
        Answer::Done => fail(out, b"record: arguments"),
        Answer::Failed => fail(out, b"record: arguments"),
    }
}

// The number that a word is: the size of the buffer.
fn take_size(word: &[u8], out: &mut [u8]) -> Marks
    requires { block_lines ≤ length out.old }
    ensures { (words input lines : List ℕ) → Arrives result words input out.new lines (sized (number_in word.now)) }
{
    let size = machines::programs::numbers::number_in(word);
    if LARGEST_BUFFER < size {
        return end_with(out, b"usage: record [BYTES], at most 1048576\n");
    }
    marks::at(marks::BEGINNING, size)
}

fn after_word(input: &[u8], out: &mut [u8], kept: usize, answer: Answer) -> Marks
    requires { (input_size ≤ length input.now) × (kept ≤ 3) × (block_lines ≤ length out.old) }
    ensures { (words lines : List ℕ) → Arrives result words input.now out.new lines (stepped machine naming (answer_of answer kept input.now)) }
{
    let taken = heard::word(answer, LONGEST_WORD);
    match taken {
        Taken::Brought(size) => {
            let end = kept + size;
            take_size(&input[kept..end], out)
        }
        Taken::Ended => end_with(out, b"usage: record [BYTES], at most 1048576\n"),
        Taken::Failed => end_with(out, b"usage: record [BYTES], at most 1048576\n"),
    }
}

fn least(left: u64) -> usize
    ensures { result ≡ min left 1 }
{
    if left < 1 {
        return 0;
    }
    1
}

// The start, in a buffer of that many bytes: its first byte is the count.
fn start(words: &mut [u16], n: u8, left: u64, out: &mut [u8]) -> Marks
    requires { (length words.old ≡ state_size) × (block_lines ≤ length out.old) × (left ≤ longest_trace) }
    ensures { (input lines : List ℕ) → Arrives result words.new input out.new lines (begun left n) }
{
    let block_counts = [1u32; PROCESSES];
    let room = least(left);
    let started = library_recorder::start(words, n as usize, &block_counts, &mut out[..room], 0);
    let answer = started.answer;
    let summary = Summary::from(answer);
    let refused = summary.number();
    if refused != 0 {
        return end_refused(out, 0, refused as u64);
    }
    Marks {
        phase: marks::WRITING,
        left: left - 1,
        done: 0,
        kept: 0,
        size: 1,
        pending: 0,
    }
}

fn after_first(
    words: &mut [u16],
    input: &[u8],
    out: &mut [u8],
    left: u64,
    kept: usize,
    answer: Answer,
) -> Marks
    requires { (length words.old ≡ state_size) × (input_size ≤ length input.now) × (kept ≤ 3) × (block_lines ≤ length out.old) × (left ≤ longest_trace) }
    ensures { (lines : List ℕ) → Arrives result words.new input.now out.new lines (stepped machine (beginning left) (answer_of answer kept input.now)) }
{
    let taken = heard::read(answer, 1);
    match taken {
        Taken::Brought(_) => start(words, input[kept], left, out),
        Taken::Ended => end_refused(out, 0, 12),
        Taken::Failed => fail(out, b"record: standard input"),
    }
}

// "The program ends after record 1,000,000,000 and reads nothing past it."
fn to_read(m: Marks) -> Marks
    requires { (m.left ≤ longest_trace) × (m.done ≤ most_records) × (m.kept ≤ 3) }
    ensures { (words input out lines : List ℕ) → Arrives result words input out lines (to_read_of (position_of m words input)) }
{
    if MOST_RECORDS <= m.done {
        return stop();
    }
    Marks {
        phase: marks::READING,
        left: m.left,
        done: m.done,
        kept: m.kept,
        size: 0,
        pending: 0,
    }
}

// The lines that are left to report are put to the front of `out`.
fn to_report(m: Marks, out: &mut [u8], lines: &[u8]) -> Marks
    requires { (m.left ≤ longest_trace) × (m.done ≤ most_records) × (m.kept ≤ 3) × (m.pending ≤ length lines.now) × (m.pending ≤ length out.old) }
    ensures { (words input : List ℕ) → Arrives result words input out.new lines.now (to_report (take m.pending lines.now) (position_of m words input)) }
{
    let pending = m.pending;
    if pending == 0 {
        return to_read(m);
    }
    let size = machines::programs::text::write_word(out, 0, &lines[..pending]);
    Marks {
        phase: marks::REPORTING,
        left: m.left,
        done: m.done,
        kept: m.kept,
        size,
        pending: 0,
    }
}

fn after_write(m: Marks, out: &mut [u8], lines: &[u8], answer: Answer) -> Marks
    requires { (m.left ≤ longest_trace) × (m.done ≤ most_records) × (m.kept ≤ 3) × (m.pending ≤ block_lines) × (block_lines ≤ length lines.now) × (block_lines ≤ length out.old) }
    ensures { (words input : List ℕ) (at : ℕ) → Arrives result words input out.new lines.now (stepped machine (writing (take m.size out.old) (take m.pending lines.now) (position_of m words input)) (answer_of answer at input)) }
{
    if heard::is_done(answer) {
        return to_report(m, out, lines);
    }
    fail(out, b"record: standard output")
}

// What is left over at the end of the input is reported.
fn to_end(m: Marks, out: &mut [u8]) -> Marks
    requires { (m.done ≤ most_records) × (m.kept ≤ 3) × (block_lines ≤ length out.old) }
    ensures { (words input lines : List ℕ) → m.kept ≤ length input → Arrives result words input out.new lines (to_end_of (end_line m.done (take m.kept input))) }
{
    if m.kept == 0 {
        return stop();
    }
    end_refused(out, m.done + 1, 13)
}

// A block: the bytes kept, and those that a read brought.
fn take_block(
    m: Marks,
    words: &mut [u16],
    input: &mut [u8],
    out: &mut [u8],
    lines: &mut [u8],
    size: usize,
) -> Marks
    requires { (m.left ≤ longest_trace) × (m.done ≤ most_records) × (m.kept ≤ 3) × (m.kept + size ≤ min block_bytes (4 * (most_records - m.done))) × (input_size ≤ length input.old) × (block_lines ≤ length out.old) × (block_lines ≤ length lines.old) }
    ensures { Arrives result words.new input.new out.new lines.new (block_taken (position_of m words.old input.old).standing (take (m.kept + size) input.old)) }
{
    let end = m.kept + size;
    let t = block::take_all(words, m.left, m.done, &input[..end], out, lines);
    let from = (4 * (t.done - m.done)) as usize;
    let rest = end - from;
    machines::replay_input::buffer::keep(input, 0, from, end);
    let next = Marks {
        phase: marks::WRITING,
        left: t.left,
        done: t.done,
        kept: rest,
        size: t.size,
        pending: t.pending,
    };
    if t.size == 0 {
        return to_report(next, out, lines);
    }
    next
}

fn after_read(
    m: Marks,
    words: &mut [u16],
    input: &mut [u8],
    out: &mut [u8],
    lines: &mut [u8],
    answer: Answer,
) -> Marks
    requires { (m.left ≤ longest_trace) × (m.done ≤ most_records) × (m.kept ≤ 3) × (input_size ≤ length input.old) × (block_lines ≤ length out.old) × (block_lines ≤ length lines.old) }
    ensures { Arrives result words.new input.new out.new lines.new (stepped machine (reading (position_of m words.old input.old)) (answer_of answer m.kept input.old)) }
{
    let most = marks::most_to_read(m.done, m.kept);
    let taken = heard::read(answer, most);
    match taken {
        Taken::Brought(size) => take_block(m, words, input, out, lines, size),
        Taken::Ended => to_end(m, out),
        Taken::Failed => fail(out, b"record: standard input"),
    }
}

// The numbers of the state that an answer leads to.
pub fn on(
    m: Marks,
    words: &mut [u16],
    input: &mut [u8],
    out: &mut [u8],
    lines: &mut [u8],
    answer: Answer,
) -> Marks
    requires { (m.left ≤ longest_trace) × (m.done ≤ most_records) × (m.kept ≤ 3) × (m.pending ≤ block_lines) × (length words.old ≡ state_size) × (input_size ≤ length input.old) × (block_lines ≤ length out.old) × (block_lines ≤ length lines.old) }
    ensures { Arrives result words.new input.new out.new lines.new (stepped machine (state_in m words.old input.old out.old lines.old) (answer_of answer m.kept input.old)) }
{
    let phase = m.phase;
    match phase {
        1 => after_count(out, answer),
        2 => after_word(input, out, m.kept, answer),
        3 => after_first(words, input, out, m.left, m.kept, answer),
        4 => after_write(m, out, lines, answer),
        5 => to_read(m),
        6 => after_read(m, words, input, out, lines, answer),
        _ => stop(),
    }
}
