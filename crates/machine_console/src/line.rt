// The line of a call, printed to the front of a lent buffer.
ghost use Rattle.std.specs.Prelude.{◌≡◌, ◌++◌, ◌+◌, ◌*◌, ◌≤◌};
ghost use Rattle.laws.specs.Basics.{[], Some, length};
ghost use Rattle.model.specs.Words.{most_processes, most_deletions};
ghost use Rattle.whole_runs.specs.Listing.{decimal};
ghost use Rattle.listing.specs.{Lines.number_said, Printed.Printed};
ghost use Rattle.machine_console.specs.Text.{field_text, pairs_text, list_text, entries_text, answer_text, line_text};
ghost use Rattle.machine_console.specs.Replied.{longest_line, reply_of, longest_field, longest_answer};

use crate::calls::Replied;
use crate::script::Call;
use crate::text;
use listing::Summary;
use theory_roles::Operation;

// A value and the deletions.
fn write_valued(out: &mut [u8], at: usize, summary: Summary, pairs: &[u16]) -> usize
    requires { at + (2 * longest_field + longest_field * length pairs.now) ≤ length out.old }
    ensures { Printed out.old at (field_text summary.value ++ pairs_text summary.deletions pairs.now) out.new result × (result ≤ at + (2 * longest_field + longest_field * length pairs.now)) }
{
    let value = summary.value;
    let valued = text::write_value(out, at, value);
    text::write_pairs(out, valued, summary.deletions, pairs)
}

// The forced index, the set of the entries that rose, and the deletions.
fn write_delivered(out: &mut [u8], at: usize, summary: Summary, rose: u16, pairs: &[u16]) -> usize
    requires { at + (3 * longest_field + longest_field * length pairs.now) ≤ length out.old }
    ensures { Printed out.old at (field_text summary.value ++ (field_text (Some rose) ++ pairs_text summary.deletions pairs.now)) out.new result × (result ≤ at + (3 * longest_field + longest_field * length pairs.now)) }
{
    let value = summary.value;
    let valued = text::write_value(out, at, value);
    let risen = text::write_field(out, valued, rose as u64);
    text::write_pairs(out, risen, summary.deletions, pairs)
}

// The members of the line, how many were rolled back, and the deletions.
fn write_recovered(
    out: &mut [u8],
    at: usize,
    summary: Summary,
    pairs: &[u16],
    line: &[u16],
) -> usize
    requires { at + (longest_field * length line.now + (2 * longest_field + longest_field * length pairs.now)) ≤ length out.old }
    ensures { Printed out.old at (entries_text line.now ++ (field_text summary.value ++ pairs_text summary.deletions pairs.now)) out.new result × (result ≤ at + (longest_field * length line.now + (2 * longest_field + longest_field * length pairs.now))) }
{
    let members = text::write_entries(out, at, line);
    write_valued(out, members, summary, pairs)
}

// The value of a list is its count.
fn write_list(out: &mut [u8], at: usize, value: Option<u64>, pairs: &[u16]) -> usize
    requires { at + (longest_field + longest_field * length pairs.now) ≤ length out.old }
    ensures { Printed out.old at (list_text value pairs.now) out.new result × (result ≤ at + (longest_field + longest_field * length pairs.now)) }
{
    match value {
        None => at,
        Some(count) => text::write_pairs(out, at, count as usize, pairs),
    }
}

// What follows the 0 of an accepted call, by its operation.
fn write_answer(
    out: &mut [u8],
    at: usize,
    c: Call,
    n: usize,
    r: Replied,
    pairs: &[u16],
    line: &[u16],
) -> usize
    requires { (length pairs.now ≤ most_deletions) × (length line.now ≤ most_processes) × (at + longest_answer ≤ length out.old) }
    ensures { Printed out.old at (answer_text c.operation c.caller n (reply_of r pairs.now line.now)) out.new result × (result ≤ at + longest_answer) }
{
    let summary = r.summary;
    let value = summary.value;
    let operation = c.operation;
    match operation {
        Operation::Checkpoint => write_valued(out, at, summary, pairs),
        Operation::Send => text::write_value(out, at, value),
        Operation::Deliver => write_delivered(out, at, summary, r.rose, pairs),
        Operation::Lose => at,
        Operation::Recover => write_recovered(out, at, summary, pairs, line),
        Operation::Line => text::write_members(out, at, c.caller, n, line),
        Operation::Earliest => text::write_entries(out, at, line),
        Operation::List => write_list(out, at, value, pairs),
        Operation::Counts => text::write_entries(out, at, line),
        Operation::Start => at,
    }
}

// The number of a call, and 0 or that of its refusal.
fn write_numbers(out: &mut [u8], number: u64, refused: u64) -> usize
    requires { longest_line ≤ length out.old }
    ensures { Printed out.old 0 (decimal number ++ field_text (Some refused)) out.new result × (result ≤ 41) }
{
    let numbered = listing::write_number(out, 0, number);
    text::write_field(out, numbered, refused)
}

// The line of a refusal.
pub fn write_refused(out: &mut [u8], number: u64, refused: u64) -> usize
    requires { longest_line ≤ length out.old }
    ensures { Printed out.old 0 (line_text number refused []) out.new result × (result ≤ longest_line) }
{
    let after_code = write_numbers(out, number, refused);
    listing::write_byte(out, after_code, b'\n')
}

// The line of a call that is made.
pub fn write_line(
    out: &mut [u8],
    number: u64,
    c: Call,
    n: usize,
    r: Replied,
    pairs: &[u16],
    line: &[u16],
) -> usize
    requires { (length pairs.now ≤ most_deletions) × (length line.now ≤ most_processes) × (longest_line ≤ length out.old) }
    ensures { Printed out.old 0 (line_text number (number_said r.summary.refused) (answer_text c.operation c.caller n (reply_of r pairs.now line.now))) out.new result × (result ≤ longest_line) }
{
    let summary = r.summary;
    let refused = summary.number();
    if refused != 0 {
        return write_refused(out, number, refused as u64);
    }
    let after_code = write_numbers(out, number, 0);
    let whole = write_answer(out, after_code, c, n, r, pairs, line);
    listing::write_byte(out, whole, b'\n')
}
