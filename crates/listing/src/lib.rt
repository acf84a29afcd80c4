// A record's line of text, printed into a lent buffer. Every function that writes prints one text of whole_runs's specs/Listing from a place
// on, asks for room for that text and no more, and hands back the place after it. proofs/Bounds says how long a line can be. Buffer and place are no struct of their own: it
// would be taken apart and made anew wherever the buffer is lent on, and the clauses would say the same of its two fields.

#![tactic(auto)]

ghost use Rattle.std.specs.Prelude.{◌≡◌, ◌∷◌, ◌*◌, ◌≤◌};
ghost use Rattle.laws.specs.Basics.{[], length};
ghost use Rattle.whole_runs.specs.Listing.{decimal, value_text, deletions_text, accepted_text, line_text};
ghost use Rattle.listing.specs.{Lines.reply_of, Lines.pair_text, Lines.refusal_line, Printed.Room, Printed.Printed};

// summaries.rt: what a line says of each answer: the number that document 01 gives a refusal, the value, the count of deletions.
pub mod summaries;

// output.rt: the lines of a listing that belong to no record, and what every line shares: a line printed where there is room for it, the ends of a trace.
pub mod output;

// answers.rt: an answer as one number of 64 bits, for callers in a language to which no enum can be handed
pub mod answers;

use std::num::NonZeroU8;

// No line of a record has more bytes (longest_line in specs/Lines).
pub const LONGEST_LINE: usize = 3102;

// What a line says after its record number: the number of its refusal, if the record is refused, the value, if there is one, and the count of deletions. The number is any
// of 8 bits but 0, so that a caller can have the line of each number printed, of a refusal or not.
#[derive(Clone, Copy)]
pub struct Summary {
    pub refused: Option<NonZeroU8>,
    pub value: Option<u64>,
    pub deletions: usize,
}

// How many decimal digits a number has.
#[tactic(auto, using(crate::proofs::Digits::digits_counted), unfolding(whole_runs::specs::Listing::decimal, whole_runs::specs::Listing::digits))]
fn width(x: u64) -> usize
    ensures { result ≡ length (decimal x) }
{
    match x.checked_ilog10() {
        None => 1,
        Some(power) => power as usize + 1,
    }
}

// The digits go straight to their places, two at a time and the last ones first: a division by 100 takes as long as one by 10. The loop ends with the number and at no index:
// it is a `while`.
pub fn write_number(out: &mut [u8], at: usize, x: u64) -> usize
    requires { Room out.old at (decimal x) }
    ensures { Printed out.old at (decimal x) out.new result }
{
    let end = at + width(x);
    let mut place = end;
    let mut rest = x;
    while 100 <= rest {
        place -= 2;
        let two = rest % 100;
        out[place] = (48 + two / 10) as u8;
        out[place + 1] = (48 + two % 10) as u8;
        rest /= 100;
    }
    if 10 <= rest {
        out[at] = (48 + rest / 10) as u8;
        out[at + 1] = (48 + rest % 10) as u8;
    } else {
        out[at] = (48 + rest) as u8;
    }
    end
}

pub fn write_byte(out: &mut [u8], at: usize, byte: u8) -> usize
    requires { Room out.old at (byte ∷ []) }
    ensures { Printed out.old at (byte ∷ []) out.new result }
{
    out[at] = byte;
    at + 1
}

// A value, or a hyphen where there is none.
#[tactic(auto, unfolding(whole_runs::specs::Listing::value_text))]
pub fn write_value(out: &mut [u8], at: usize, value: Option<u64>) -> usize
    requires { Room out.old at (value_text value) }
    ensures { Printed out.old at (value_text value) out.new result }
{
    match value {
        None => write_byte(out, at, b'-'),
        Some(v) => write_number(out, at, v),
    }
}

// One deletion, as process:index after a space.
#[tactic(auto, unfolding(crate::specs::Lines::pair_text))]
pub fn write_pair(out: &mut [u8], at: usize, process: u16, index: u16) -> usize
    requires { Room out.old at (pair_text process index) }
    ensures { Printed out.old at (pair_text process index) out.new result }
{
    let after_space = write_byte(out, at, b' ');
    let after_process = write_number(out, after_space, u64::from(process));
    let after_separator = write_byte(out, after_process, b':');
    write_number(out, after_separator, u64::from(index))
}

// `count` deletions from the front of the deletion list.
pub fn write_deletions(out: &mut [u8], at: usize, deleted: &[u16], count: usize) -> usize
    requires { (2 * count ≤ length deleted.now) × Room out.old at (deletions_text count deleted.now) }
    ensures { Printed out.old at (deletions_text count deleted.now) out.new result }
{
    let mut place = at;
    for k in 0..count {
        place = write_pair(out, place, deleted[2 * k], deleted[2 * k + 1]);
    }
    place
}

// What follows the 0 of an accepted record.
#[tactic(auto, unfolding(crate::specs::Lines::reply_of, whole_runs::specs::Listing::accepted_text))]
fn write_accepted(out: &mut [u8], at: usize, summary: Summary, deleted: &[u16]) -> usize
    requires { (2 * summary.deletions ≤ length deleted.now) × Room out.old at (accepted_text (reply_of summary deleted.now)) }
    ensures { Printed out.old at (accepted_text (reply_of summary deleted.now)) out.new result }
{
    let count = summary.deletions;
    let after_space = write_byte(out, at, b' ');
    let after_value = write_value(out, after_space, summary.value);
    let after_separator = write_byte(out, after_value, b' ');
    let after_count = write_number(out, after_separator, count as u64);
    write_deletions(out, after_count, deleted, count)
}

// The line of a refused record.
#[tactic(auto, unfolding(crate::specs::Lines::refusal_line))]
pub fn write_refusal(out: &mut [u8], at: usize, number: u64, refused: u8) -> usize
    requires { Room out.old at (refusal_line number refused) }
    ensures { Printed out.old at (refusal_line number refused) out.new result }
{
    let after_number = write_number(out, at, number);
    let after_space = write_byte(out, after_number, b' ');
    let after_code = write_number(out, after_space, u64::from(refused));
    write_byte(out, after_code, b'\n')
}

// The line of a record. Most records are accepted, so their 0 does not go through `write_number`. It is called in one place of the replay alone, so that it is compiled into
// the loop over the records.
#[tactic(auto, using(crate::proofs::Texts::line_of_refused, crate::proofs::Texts::accepted_length))]
pub fn write_line(
    out: &mut [u8],
    at: usize,
    number: u64,
    summary: Summary,
    deleted: &[u16],
) -> usize
    requires { (2 * summary.deletions ≤ length deleted.now) × Room out.old at (line_text number (reply_of summary deleted.now)) }
    ensures { Printed out.old at (line_text number (reply_of summary deleted.now)) out.new result }
{
    match summary.refused {
        Some(refused) => write_refusal(out, at, number, refused.get()),
        None => {
            let after_number = write_number(out, at, number);
            let after_space = write_byte(out, after_number, b' ');
            let after_code = write_byte(out, after_space, b'0');
            let whole = write_accepted(out, after_code, summary, deleted);
            write_byte(out, whole, b'\n')
        }
    }
}
