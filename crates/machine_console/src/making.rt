// A call of a script is made on the words, and its line put to the front of a buffer.
ghost use Rattle.std.specs.Prelude.{◌≡◌, ◌-◌, ◌≤◌};
ghost use Rattle.laws.specs.Basics.{Some, length, pick};
ghost use Rattle.words.specs.Layout.{run_of, state_size};
ghost use Rattle.machine_console.specs.{script.Script.call_of, Made.processes, Made.lent_line, Made.lent_pairs, Replied.longest_line, Replied.Makes};

use crate::script::{Call, Read};
use crate::{calls, line, text};
use model::{DELETIONS, PROCESSES};

// How many processes the lent lists are for.
fn processes(w: &[u16]) -> usize
    ensures { result ≡ processes (run_of w.now) }
{
    let count = library_console::denied::count_of(w);
    text::least(PROCESSES, count)
}

// A length, or one less.
fn cut(length: usize, short: bool) -> usize
    ensures { result ≡ pick short (length - 1) length }
{
    if short {
        if 0 < length {
            return length - 1;
        }
        return 0;
    }
    length
}

// A call with its lent lists, for n processes.
fn make_with(
    w: &mut [u16],
    number: u64,
    c: Call,
    n: usize,
    pairs: &mut [u16],
    line: &mut [u16],
    out: &mut [u8],
) -> usize
    requires { (length w.old ≡ state_size) × (n ≡ processes (run_of w.old)) × (pairs.old ≡ lent_pairs (run_of w.old) c) × (line.old ≡ lent_line (run_of w.old) c) × (longest_line ≤ length out.old) }
    ensures { Makes (run_of w.old) number (Some c) w.new out.new result }
{
    let replied = calls::call(w, c, pairs, line);
    line::write_line(out, number, c, n, replied, pairs, line)
}

// The lists have room for n entries and for n × n pairs, or are one entry too short, and every entry is 0.
fn make_asked(w: &mut [u16], number: u64, c: Call, out: &mut [u8]) -> usize
    requires { (length w.old ≡ state_size) × (longest_line ≤ length out.old) }
    ensures { Makes (run_of w.old) number (Some c) w.new out.new result }
{
    let n = processes(w);
    let room = cut(2 * n * n, c.short);
    let members = cut(n, c.short);
    let mut pairs = [0u16; DELETIONS];
    let mut line = [0u16; PROCESSES];
    make_with(
        w,
        number,
        c,
        n,
        &mut pairs[..room],
        &mut line[..members],
        out,
    )
}

// Eight bytes of a script. What is no call is refused with 14.
pub fn make(w: &mut [u16], number: u64, bytes: [u8; 8], out: &mut [u8]) -> usize
    requires { (length w.old ≡ state_size) × (longest_line ≤ length out.old) }
    ensures { Makes (run_of w.old) number (call_of bytes) w.new out.new result }
{
    let read = crate::script::next_of(8, bytes);
    match read {
        Read::Ended => line::write_refused(out, number, 14),
        Read::LeftOver => line::write_refused(out, number, 14),
        Read::Malformed => line::write_refused(out, number, 14),
        Read::Asks(call) => make_asked(w, number, call, out),
    }
}
