// How the machine goes on: the numbers of the state that an answer leads to. The buffers are those of the state with them.
ghost use Rattle.std.specs.Prelude.{◌+◌, ◌≤◌, ◌<◌};
ghost use Rattle.laws.specs.Basics.{List, ℕ, length};
ghost use Rattle.machines.specs.Machines.{Bytes};
ghost use Rattle.machine_merge.specs.{Buffered.most_counted, Printed.printed};
ghost use Rattle.machine_merge.specs.Merging.{longest_word, longest_name, Counting, Setting, Naming, Opening, Writing, Reporting, Failing, Stopped, no_name_text, file_text, showing, after_set};
ghost use Rattle.machine_merge.specs.Words.{longest_trace, Fits, name_at, read_to_of, stage_of, name_of, state_in, opening_of, reading_of, onward_of, ended_of, place_in, Arrives, Leads};

use crate::marks;
use crate::marks::{LONGEST_NAME, LONGEST_WORD, MOST_COUNTED, Marks, SECOND_HALF};
use machines::heard::Taken;
use machines::programs::numbers::NO_NUMBER;
use machines::{Answer, heard};

fn stop() -> Marks
    ensures { (input out : List ℕ) → Arrives result input out Stopped }
{
    marks::at(marks::STOPPED, 0)
}

// A line is reported, and then nothing more.
fn say(out: &mut [u8], line: &[u8]) -> Marks
    requires { length line.now ≤ length out.old }
    ensures { (input : List ℕ) → Arrives result input out.new (Reporting line.now) }
{
    let size = machines::programs::text::write_word(out, 0, line);
    marks::at(marks::REPORTING, size)
}

// What failed is reported, and then nothing more.
fn fail(out: &mut [u8], name: &[u8]) -> Marks
    requires { length name.now ≤ length out.old }
    ensures { (input : List ℕ) → Arrives result input out.new (Failing name.now) }
{
    let size = machines::programs::text::write_word(out, 0, name);
    marks::at(marks::FAILING, size)
}

fn after_count(out: &mut [u8], answer: Answer) -> Marks
    requires { longest_trace ≤ length out.old }
    ensures { (at : ℕ) (input : List ℕ) → longest_word ≤ length input → Leads result input out.new Counting answer at }
{
    if heard::is_number(answer, 4) {
        return marks::at(marks::SETTING, 0);
    }
    say(out, b"usage: merge FIRST SECOND SET > TRACE\n")
}

// The set that a word names, and then the first file.
fn take_set(word: &[u8], out: &mut [u8]) -> Marks
    requires { longest_trace ≤ length out.old }
    ensures { (input : List ℕ) → longest_word ≤ length input → Arrives result input out.new (after_set (Bytes word.now)) }
{
    let set = machines::programs::numbers::number_in(word);
    if set == NO_NUMBER {
        return say(out, b"usage: merge FIRST SECOND SET > TRACE\n");
    }
    Marks {
        phase: marks::NAMING,
        half: 0,
        set: machines::programs::numbers::clamped(set) as u64,
        first: 0,
        name: 0,
        count: 0,
        size: 0,
    }
}

fn after_set(input: &[u8], out: &mut [u8], answer: Answer) -> Marks
    requires { (longest_word ≤ length input.now) × (longest_trace ≤ length out.old) }
    ensures { Leads result input.now out.new Setting answer 0 }
{
    let taken = heard::word(answer, LONGEST_WORD);
    match taken {
        Taken::Brought(size) => take_set(&input[..size], out),
        Taken::Ended => say(out, b"usage: merge FIRST SECOND SET > TRACE\n"),
        Taken::Failed => say(out, b"usage: merge FIRST SECOND SET > TRACE\n"),
    }
}

// A file that has no name that the system takes.
fn fail_no_name(m: Marks, out: &mut [u8]) -> Marks
    requires { longest_trace ≤ length out.old }
    ensures { (input : List ℕ) → Arrives result input out.new (Failing (no_name_text (stage_of m input))) }
{
    if m.half == 0 {
        return fail(out, b"merge: the first file's name");
    }
    fail(out, b"merge: the second file's name")
}

// A file that cannot be opened or read.
fn fail_file(m: Marks, input: &[u8], out: &mut [u8]) -> Marks
    requires { (longest_word ≤ length input.now) × (longest_trace ≤ length out.old) × (m.name ≤ longest_name) }
    ensures { Arrives result input.now out.new (Failing (file_text (stage_of m input.now) (name_of m input.now))) }
{
    if m.name == 0 {
        return fail_no_name(m, out);
    }
    let from = marks::name_at(m.half);
    let end = from + m.name;
    let prefix = machines::programs::text::write_word(out, 0, b"merge: ");
    let size = machines::programs::text::write_word(out, prefix, &input[from..end]);
    marks::at(marks::FAILING, size)
}

// The file of a name of that many bytes is opened.
fn open_file(m: Marks, input: &[u8], out: &mut [u8], name: usize) -> Marks
    requires { Fits m × (longest_word ≤ length input.now) × (longest_trace ≤ length out.old) × (name ≤ longest_name) }
    ensures { Arrives result input.now out.new (opening_of m name input.now) }
{
    let from = marks::name_at(m.half);
    let end = from + name;
    machines::programs::text::write_word(out, 0, &input[from..end]);
    Marks {
        phase: marks::OPENING,
        half: m.half,
        set: m.set,
        first: m.first,
        name,
        count: 0,
        size: 0,
    }
}

fn after_name(m: Marks, input: &[u8], out: &mut [u8], answer: Answer) -> Marks
    requires { Fits m × (longest_word ≤ length input.now) × (longest_trace ≤ length out.old) }
    ensures { Leads result input.now out.new (Naming (stage_of m input.now)) answer (name_at m.half) }
{
    let taken = heard::word(answer, LONGEST_NAME);
    match taken {
        Taken::Brought(size) => open_file(m, input, out, size),
        Taken::Ended => fail_no_name(m, out),
        Taken::Failed => fail_no_name(m, out),
    }
}

// Bytes of a file are asked for, after that many.
fn read_more(m: Marks, count: usize) -> Marks
    requires { Fits m × (count < most_counted) }
    ensures { (input out : List ℕ) → longest_word ≤ length input → Arrives result input out (reading_of m count input) }
{
    Marks {
        phase: marks::READING,
        half: m.half,
        set: m.set,
        first: m.first,
        name: m.name,
        count,
        size: 0,
    }
}

fn after_open(m: Marks, input: &[u8], out: &mut [u8], answer: Answer) -> Marks
    requires { Fits m × (longest_word ≤ length input.now) × (longest_trace ≤ length out.old) }
    ensures { (at : ℕ) → Leads result input.now out.new (Opening (stage_of m input.now) (name_of m input.now)) answer at }
{
    if heard::is_done(answer) {
        return read_more(m, 0);
    }
    fail_file(m, input, out)
}

// The merge of what is held of both halves, or why there is none.
fn show<'a>(first: &'a [u8], second: &'a [u8], set: u32, out: &mut [u8]) -> Marks
    requires { (length first.now + length second.now ≤ length out.old) × (longest_trace ≤ length out.old) }
    ensures { (input : List ℕ) → Arrives result input out.new (showing (printed first.now second.now set)) }
{
    let answer = library_halves::merge(first, second, set, out);
    match answer {
        Err(why) => {
            let size = machines::programs::text::write_refused(out, why);
            marks::at(marks::REPORTING, size)
        }
        Ok(size) => marks::at(marks::WRITING, size),
    }
}

// A half has ended.
fn end_half(m: Marks, count: usize, input: &[u8], out: &mut [u8]) -> Marks
    requires { Fits m × (longest_word ≤ length input.now) × (longest_trace ≤ length out.old) }
    ensures { Arrives result input.now out.new (ended_of m count input.now) }
{
    let buffered = marks::buffered_size(count);
    if m.half == 0 {
        return Marks {
            phase: marks::NAMING,
            half: 1,
            set: m.set,
            first: buffered,
            name: 0,
            count: 0,
            size: 0,
        };
    }
    let end = LONGEST_NAME + m.first;
    let last = SECOND_HALF + buffered;
    show(
        &input[LONGEST_NAME..end],
        &input[SECOND_HALF..last],
        m.set as u32,
        out,
    )
}

// That many bytes of a half were read.
fn go_on(m: Marks, count: usize, input: &[u8], out: &mut [u8]) -> Marks
    requires { Fits m × (longest_word ≤ length input.now) × (longest_trace ≤ length out.old) }
    ensures { Arrives result input.now out.new (onward_of m count input.now) }
{
    if count < MOST_COUNTED {
        return read_more(m, count);
    }
    end_half(m, count, input, out)
}

fn after_read(m: Marks, input: &[u8], out: &mut [u8], answer: Answer) -> Marks
    requires { Fits m × (longest_word ≤ length input.now) × (longest_trace ≤ length out.old) × (m.count < most_counted) }
    ensures { Leads result input.now out.new (reading_of m m.count input.now) answer (read_to_of m.half m.count) }
{
    let taken = heard::read(answer, marks::wanted(m.count));
    match taken {
        Taken::Brought(size) => go_on(m, m.count + size, input, out),
        Taken::Ended => end_half(m, m.count, input, out),
        Taken::Failed => fail_file(m, input, out),
    }
}

fn after_write(out: &mut [u8], answer: Answer) -> Marks
    requires { longest_trace ≤ length out.old }
    ensures { (trace : List ℕ) (at : ℕ) (input : List ℕ) → Leads result input out.new (Writing trace) answer at }
{
    if heard::is_done(answer) {
        return stop();
    }
    fail(out, b"merge: standard output")
}

// The numbers of the state that an answer leads to.
pub fn on(m: Marks, input: &[u8], out: &mut [u8], answer: Answer) -> Marks
    requires { Fits m × (longest_word ≤ length input.now) × (longest_trace ≤ length out.old) × (m.count < most_counted) }
    ensures { Leads result input.now out.new (state_in m input.now out.old) answer (place_in m) }
{
    let phase = m.phase;
    match phase {
        marks::COUNTING => after_count(out, answer),
        marks::SETTING => after_set(input, out, answer),
        marks::NAMING => after_name(m, input, out, answer),
        marks::OPENING => after_open(m, input, out, answer),
        marks::READING => after_read(m, input, out, answer),
        marks::WRITING => after_write(out, answer),
        _ => stop(),
    }
}
