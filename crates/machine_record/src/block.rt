// The records of a block, each through the recorder: what is recorded goes to the front of `out`, the lines of refused records to the front of `lines`.
ghost use Rattle.std.specs.Prelude.{◌≡◌, ◌+◌, ◌*◌, ◌≤◌};
ghost use Rattle.laws.specs.Basics.{length};
ghost use Rattle.whole_runs.specs.Listing.{most_records};
ghost use Rattle.trace.specs.Answers.{event_in};
ghost use Rattle.words.specs.Layout.{run_of};
ghost use Rattle.machine_record.specs.{Machine.block_bytes};
ghost use Rattle.machine_record.specs.Played.{longest_line, block_lines, place_for_of, TakesOne, TakesAll};

use crate::{calls, text};

// How many bytes of the buffer are left and how many records were taken; how many bytes were recorded, and how many are reported.
#[derive(Clone, Copy)]
pub struct Taken {
    pub left: u64,
    pub done: u64,
    pub size: usize,
    pub pending: usize,
}

// The place for a record in `out`: none where the buffer that the trace is recorded into has no room.
fn place_for(left: u64, at: usize, end: usize) -> usize
    ensures { result ≡ place_for_of left at end }
{
    if left < 4 {
        return end;
    }
    at
}

// One record, which is the four bytes of `part`.
fn take_one(w: &mut [u16], t: Taken, part: &[u8], out: &mut [u8], lines: &mut [u8]) -> Taken
    requires { (t.size + 4 ≤ length out.old) × (t.pending + longest_line ≤ length lines.old) × (t.done ≤ most_records) × (t.size ≤ block_bytes) }
    ensures { TakesOne (run_of w.old) t (event_in part.now) out.old lines.old (run_of w.new) result out.new lines.new }
{
    let place = place_for(t.left, t.size, out.len());
    let played = calls::play(w, part, out, place);
    let more = played.place - place;
    let count = t.done + 1;
    let pending = text::write_line(lines, t.pending, count, played.refused as u64);
    Taken {
        left: t.left - more as u64,
        done: count,
        size: t.size + more,
        pending,
    }
}

// The whole records of a block, in their order.
pub fn take_all(
    w: &mut [u16],
    left: u64,
    done: u64,
    block: &[u8],
    out: &mut [u8],
    lines: &mut [u8],
) -> Taken
    requires { (length block.now ≤ block_bytes) × (block_bytes ≤ length out.old) × (block_lines ≤ length lines.old) × (4 * done + length block.now ≤ 4 * most_records) }
    ensures { TakesAll (run_of w.old) left done block.now (length out.old) (length lines.old) (run_of w.new) result out.new lines.new }
{
    let mut t = Taken {
        left,
        done,
        size: 0,
        pending: 0,
    };
    let mut at = 0;
    while 4 <= block.len() - at {
        let part = trace::record_part(block, at);
        let next = take_one(w, t, part, out, lines);
        t = next;
        at += 4;
    }
    t
}
