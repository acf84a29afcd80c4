// Whether the words that a caller lends stand for a sound state (document 01, "A sound state", with Note 5's clauses). What stands in a place that is not in use counts
// for nothing and is not looked at. A row of 16 words is tested with no exit on the way (rows.rt); a row that fails ends the test.

#![tactic(auto)]

ghost use Rattle.std.specs.Prelude.{◌≡◌, ◌&&◌, ◌+◌, ◌*◌, ◌≤◌, ◌<◌};
ghost use Rattle.laws.specs.Basics.{eqb, leb, length};
ghost use Rattle.laws.specs.Search.{all_below};
ghost use Rattle.model.specs.{Sound.sound, Words.most_processes, Words.most_blocks};
ghost use Rattle.words.specs.Layout.{word, wide4, count_of, kept_count_at_of, blocks_at_of, run_of, state_size};
ghost use Rattle.words_sound.specs.Test.{limits_in, Judged, counts_fit, part_fits, disk_fits};

use model::{Interval, MOST_BLOCKS, PROCESSES};
use words::{WORDS, places};

// process.rt: one process, its vector, its pins and what it keeps
mod process;

// under_way.rt: the messages under way
mod under_way;

// rows.rt: tests of rows of 16 words, as a sound state asks for them
pub mod rows;

// The own entries of the n processes, zero at n and above.
fn own_entries(w: &[u16], n: usize) -> [Interval; PROCESSES]
    requires { (length w.now ≡ state_size) × (n ≡ count_of w.now) × (n ≤ most_processes) }
    ensures { result ≡ limits_in w.now }
{
    let mut owns = [Interval(0); PROCESSES];
    for f in 0..n {
        let at = places::part_at(f) + f;
        let own = words::interval_of(w[at]);
        owns[f] = own;
    }
    owns
}

// Written is the blocks of all kept checkpoints plus blocks deleted, and is within the bound of 16. No sum of two free numbers is made: it might wrap around.
fn is_balanced(w: &[u16], kept: u64) -> bool
    requires { length w.now ≡ state_size }
    ensures { result ≡ (eqb (wide4 w.now 4) (kept + wide4 w.now 8) && leb (wide4 w.now 4) most_blocks) }
{
    let written = words::wide4(w, places::WRITTEN);
    let deleted = words::wide4(w, places::DELETED);
    if MOST_BLOCKS < written {
        return false;
    }
    if written < deleted {
        return false;
    }
    written - deleted == kept
}

fn wide(x: u16) -> u64
    ensures { (result ≡ x) × (result ≤ 65535) }
{
    x as u64
}

// The blocks of what process p keeps, each of its block count.
fn blocks_kept(w: &[u16], p: usize) -> u64
    requires { (length w.now ≡ state_size) × (p < most_processes) × (word w.now (kept_count_at_of p) ≤ most_processes) }
    ensures { (result ≡ word w.now (kept_count_at_of p) * word w.now (blocks_at_of p)) × (result ≤ 1048560) }
{
    let kept_count_at = places::kept_count_at(p);
    let kept_count = wide(w[kept_count_at]);
    let blocks_at = places::blocks_at(p);
    let blocks = wide(w[blocks_at]);
    kept_count * blocks
}

// Each of the n processes is sound, and so is the sum of their blocks.
fn are_processes_sound(w: &[u16], n: usize, owns: [Interval; PROCESSES]) -> bool
    requires { Judged w.now n owns }
    ensures { result ≡ (all_below n (counts_fit w.now) && all_below n (part_fits w.now) && disk_fits w.now) }
{
    let columns = crate::rows::limits_where(owns);
    let mut blocks: u64 = 0;
    for p in 0..n {
        let ok = process::is_sound(w, p, n, owns, columns);
        if !ok {
            return false;
        }
        let more = blocks_kept(w, p);
        blocks = blocks + more;
    }
    is_balanced(w, blocks)
}

// Words of another length stand for no sound state. The count is judged first: every other test is over that many processes, and there are places for 16.
pub fn is_sound(w: &[u16]) -> bool
    ensures { result ≡ sound (run_of w.now) }
{
    if w.len() != WORDS {
        return false;
    }
    let n = process::number_of(w[places::COUNT]);
    if n < 1 {
        return false;
    }
    if PROCESSES < n {
        return false;
    }
    let owns = own_entries(w, n);
    let processes = are_processes_sound(w, n, owns);
    if !processes {
        return false;
    }
    under_way::are_messages_sound(w, n, owns)
}
