// The whole records of a block, as many as are taken. A block is records alone: the first byte of a trace is not in it.
ghost use Rattle.std.specs.Prelude.{◌≡◌, ◌≤◌};
ghost use Rattle.laws.specs.Basics.{true, length, sets};
ghost use Rattle.model.specs.{Sound.sound, Words.most_processes, Words.most_deletions};
ghost use Rattle.whole_runs.specs.WholeRuns.{Reachable};
ghost use Rattle.words.specs.Layout.{run_of};
ghost use Rattle.in_place.specs.Left.{Leaves};
ghost use Rattle.library_replay.specs.Taken.{block_outcome, is_left_of, record_in_of, takes_next_of};

use crate::record;
use listing::LONGEST_LINE;
use model::{DELETIONS, PROCESSES};
use whole_runs::MOST_RECORDS;

// How many records of a block were taken, how many bytes of lines were written, and whether the replay goes on after them.
#[derive(Clone, Copy)]
pub struct Progress {
    pub taken: usize,
    pub written: usize,
    pub going: bool,
}

fn is_left(block: &[u8], taken: usize) -> bool
    ensures { result ≡ is_left_of block.now taken }
{
    taken < block.len() / 4
}

// The record that is next, as the part of the block with its four bytes.
fn record_in<'a>(block: &'a [u8], taken: usize) -> &'a [u8]
    ensures { result.now ≡ record_in_of block.now taken }
{
    if is_left(block, taken) {
        trace::record_part(block, 4 * taken)
    } else {
        &block[..0]
    }
}

// Whether one more record is taken: the replay goes on, it is not past the last record that a replay takes, the longest line fits into the room that is left, and a
// whole record is left.
fn takes_next(going: bool, done: u64, block: &[u8], taken: usize, room: usize) -> bool
    ensures { result ≡ takes_next_of going done block.now taken room }
{
    if !going {
        return false;
    }
    if MOST_RECORDS <= done {
        return false;
    }
    if MOST_RECORDS - done <= taken as u64 {
        return false;
    }
    if room < LONGEST_LINE {
        return false;
    }
    is_left(block, taken)
}

// The records of a block on words of which `tested` says whether they stand for a sound state, and `reached` whether calls from a start led to them; with lists for
// what is deleted and for the line.
fn replay_with_lists(
    w: &mut [u16],
    tested: bool,
    reached: bool,
    all: bool,
    done: u64,
    block: &[u8],
    out: &mut [u8],
    deleted: &mut [u16],
    line: &mut [u16],
) -> Progress
    requires { (tested ≡ sound (run_of w.old)) × (reached ≡ true → Reachable (run_of w.old)) × (length deleted.old ≡ most_deletions) × (length line.old ≡ most_processes) }
    ensures taken_value { result.taken ≡ (block_outcome all done (run_of w.old) block.now (length out.old)).taken }
    ensures written_value { (result.written ≡ length (block_outcome all done (run_of w.old) block.now (length out.old)).lines) × (result.written ≤ length out.old) }
    ensures going_value { result.going ≡ (block_outcome all done (run_of w.old) block.now (length out.old)).going }
    ensures out_after { out.new ≡ sets out.old 0 (block_outcome all done (run_of w.old) block.now (length out.old)).lines }
    ensures w_after { run_of w.new ≡ (block_outcome all done (run_of w.old) block.now (length out.old)).run }
    ensures leaves { Leaves w.old w.new }
{
    let mut still = tested;
    let mut taken = 0;
    let mut written = 0;
    let mut going = true;
    while takes_next(going, done, block, taken, out.len() - written) {
        let part = record_in(block, taken);
        let d = trace::decode(part);
        taken += 1;
        let applied = record::apply(w, still, reached, d, deleted, line);
        let summary = applied.summary;
        still = applied.sound;
        going = listing::output::line::goes_on(all, summary.refused);
        written = listing::output::line::print(
            summary,
            deleted,
            done + (taken as u64),
            out,
            written,
        );
    }
    Progress {
        taken,
        written,
        going,
    }
}

// The same with lists of its own.
fn replay_from(
    w: &mut [u16],
    tested: bool,
    reached: bool,
    all: bool,
    done: u64,
    block: &[u8],
    out: &mut [u8],
) -> Progress
    requires { (tested ≡ sound (run_of w.old)) × (reached ≡ true → Reachable (run_of w.old)) }
    ensures taken_value { result.taken ≡ (block_outcome all done (run_of w.old) block.now (length out.old)).taken }
    ensures written_value { (result.written ≡ length (block_outcome all done (run_of w.old) block.now (length out.old)).lines) × (result.written ≤ length out.old) }
    ensures going_value { result.going ≡ (block_outcome all done (run_of w.old) block.now (length out.old)).going }
    ensures out_after { out.new ≡ sets out.old 0 (block_outcome all done (run_of w.old) block.now (length out.old)).lines }
    ensures w_after { run_of w.new ≡ (block_outcome all done (run_of w.old) block.now (length out.old)).run }
    ensures leaves { Leaves w.old w.new }
{
    let mut deletions = [0u16; DELETIONS];
    let deleted: &mut [u16] = &mut deletions;
    let mut indexes = [0u16; PROCESSES];
    let line: &mut [u16] = &mut indexes;
    replay_with_lists(w, tested, reached, all, done, block, out, deleted, line)
}

// The records of a block on any words. It stops where no whole record is left, where the longest line might not fit, after record 1,000,000,000, and after a refusal
// unless `all` is asked for; `done` counts the records before the block. Once the words stand for no sound state each record is refused, with 14 or else with 2.
// Wherever calls from an accepted start led to the state of the words, they lead to the state that is left (demand 3).
pub fn replay(w: &mut [u16], all: bool, done: u64, block: &[u8], out: &mut [u8]) -> Progress
    ensures taken_value { result.taken ≡ (block_outcome all done (run_of w.old) block.now (length out.old)).taken }
    ensures written_value { (result.written ≡ length (block_outcome all done (run_of w.old) block.now (length out.old)).lines) × (result.written ≤ length out.old) }
    ensures going_value { result.going ≡ (block_outcome all done (run_of w.old) block.now (length out.old)).going }
    ensures out_after { out.new ≡ sets out.old 0 (block_outcome all done (run_of w.old) block.now (length out.old)).lines }
    ensures w_after { run_of w.new ≡ (block_outcome all done (run_of w.old) block.now (length out.old)).run }
    ensures leaves { Leaves w.old w.new }
    ensures reachable { Reachable (run_of w.old) → Reachable (run_of w.new) }
{
    let tested = words_sound::is_sound(w);
    replay_from(w, tested, false, all, done, block, out)
}

// The same on words to which calls from a start led: they are sound, and stay so.
pub fn replay_reached(w: &mut [u16], all: bool, done: u64, block: &[u8], out: &mut [u8]) -> Progress
    requires { Reachable (run_of w.old) }
    ensures taken_value { result.taken ≡ (block_outcome all done (run_of w.old) block.now (length out.old)).taken }
    ensures written_value { (result.written ≡ length (block_outcome all done (run_of w.old) block.now (length out.old)).lines) × (result.written ≤ length out.old) }
    ensures going_value { result.going ≡ (block_outcome all done (run_of w.old) block.now (length out.old)).going }
    ensures out_after { out.new ≡ sets out.old 0 (block_outcome all done (run_of w.old) block.now (length out.old)).lines }
    ensures w_after { run_of w.new ≡ (block_outcome all done (run_of w.old) block.now (length out.old)).run }
    ensures leaves { Leaves w.old w.new }
    ensures reachable { Reachable (run_of w.new) }
{
    replay_from(w, true, true, all, done, block, out)
}
