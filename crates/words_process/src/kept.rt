// The checkpoints that one process keeps, in 16 places: those that a pin names stay, the others are deleted and handed out as pairs.
ghost use Rattle.std.specs.Prelude.{◌≡◌, ◌+◌, ◌*◌, ◌≤◌, ◌<◌};
ghost use Rattle.laws.specs.Basics.{not, length, set, sets};
ghost use Rattle.laws.specs.Lists.{select, table};
ghost use Rattle.model.specs.{Words.is_pinned, Words.most_processes, Words.most_interval, Words.kept_places, Words.most_deletions, Steps.listed};
ghost use Rattle.whole_runs.specs.Outcomes.{pairs};
ghost use Rattle.words.specs.{Layout.checkpoint_in, Layout.state_size, Puts.puts};
ghost use Rattle.words_process.specs.Kept.{stored_puts, moved_up, cleared_puts, Used, AllPinned, Cleared, Split, Collected};
ghost use Rattle.words_process.specs.Pins.{pin_row};

use model::{CheckpointIndex, Interval, PROCESSES};
use words::places;

// A checkpoint of process p is stored in place k.
pub fn store(
    w: &mut [u16],
    p: usize,
    k: usize,
    index: CheckpointIndex,
    cause: u16,
    vector: [Interval; PROCESSES],
)
    requires { (length w.old ≡ state_size) × (p < most_processes) × (k < most_processes) × (index.0 < most_interval) }
    ensures { w.new ≡ puts w.old (stored_puts p k index cause vector) }
{
    w[places::INDEXES + places::PART * p + k] = words::pin_word(index);
    w[places::CAUSES + places::PART * p + k] = cause;
    words::put_vector(
        w,
        places::STORED + places::PART * p + places::ROW * k,
        vector,
    );
}

// What stands in place `from` goes to place `to`.
fn move_up(w: &mut [u16], p: usize, from: usize, to: usize)
    requires { (length w.old ≡ state_size) × (p < most_processes) × (from < most_processes) × (to < most_processes) }
    ensures { w.new ≡ moved_up w.old p from to }
{
    let index = w[places::INDEXES + places::PART * p + from];
    let cause = w[places::CAUSES + places::PART * p + from];
    let row = words::row_at(w, places::STORED + places::PART * p + places::ROW * from);
    w[places::INDEXES + places::PART * p + to] = index;
    w[places::CAUSES + places::PART * p + to] = cause;
    words::put_row(w, places::STORED + places::PART * p + places::ROW * to, row);
}

fn clear(w: &mut [u16], p: usize, k: usize)
    requires { (length w.old ≡ state_size) × (p < most_processes) × (k < most_processes) }
    ensures { w.new ≡ puts w.old (cleared_puts p k) }
{
    w[places::INDEXES + places::PART * p + k] = 0;
    w[places::CAUSES + places::PART * p + k] = 0;
    words::clear_row(w, places::STORED + places::PART * p + places::ROW * k);
}

// The places from `from` up to `to` are not in use any more, and hold zero.
fn clear_from(w: &mut [u16], p: usize, from: usize, to: usize)
    requires { (length w.old ≡ state_size) × (p < most_processes) × (from ≤ to) × (to ≤ most_processes) }
    ensures { Cleared w.old p from to w.new }
{
    for k in from..to {
        clear(w, p, k);
    }
}

// The pair of a deleted checkpoint, its process and its index, goes after those of the `gone` that were deleted before it.
fn write_pair(deleted: &mut [u16], gone: usize, p: usize, index: CheckpointIndex)
    requires { (2 * gone + 2 ≤ length deleted.old) × (p < most_processes) × (gone < most_deletions) }
    ensures { deleted.new ≡ set (set deleted.old (2 * gone) p) (2 * gone + 1) index.0 }
{
    deleted[2 * gone] = p as u16;
    deleted[2 * gone + 1] = index.0;
}

// The first of the places from `from` up to `kept_count` whose checkpoint no pin names; `kept_count` if a pin names each.
fn first_unpinned(
    w: &[u16],
    p: usize,
    from: usize,
    kept_count: usize,
    pins: [u16; PROCESSES],
) -> usize
    requires { (length w.now ≡ state_size) × (p < most_processes) × (from ≤ kept_count) × (kept_count ≤ most_processes) × Used w.now p kept_count × AllPinned w.now p (pin_row pins) from }
    ensures { (from ≤ result) × (result ≤ kept_count) × AllPinned w.now p (pin_row pins) result }
{
    let mut k = from;
    while k < kept_count {
        let pinned = super::pins::is_pinned(pins, w[places::INDEXES + places::PART * p + k]);
        if !pinned {
            return k;
        }
        k += 1;
    }
    k
}

// Of the checkpoints in the places from `from` up to `kept_count` those that a pin names move up to `from`; the pairs of the others go after those of the `before` that
// were deleted before them. The result says where the last that stays ends.
fn split(
    w: &mut [u16],
    p: usize,
    from: usize,
    kept_count: usize,
    pins: [u16; PROCESSES],
    deleted: &mut [u16],
    before: usize,
) -> usize
    requires w_len { (length w.old ≡ state_size) × (p < most_processes) × (from ≤ kept_count) × (kept_count ≤ most_processes) × Used w.old p kept_count × AllPinned w.old p (pin_row pins) from }
    requires kept_count_in_bounds { (2 * before + 2 * kept_count ≤ length deleted.old) × (before ≤ kept_places) }
    ensures split { Split w.old p kept_count (pin_row pins) w.new result }
    ensures deleted_after { deleted.new ≡ sets deleted.old (2 * before) (pairs (listed p (select (λ c. not (is_pinned (pin_row pins) c)) (table kept_count (checkpoint_in w.old p))))) }
    ensures kept_count_value { kept_count ≡ result + length (select (λ c. not (is_pinned (pin_row pins) c)) (table kept_count (checkpoint_in w.old p))) }
{
    let mut to = from;
    for k in from..kept_count {
        let word = w[places::INDEXES + places::PART * p + k];
        let pinned = super::pins::is_pinned(pins, word);
        if pinned {
            move_up(w, p, k, to);
            to += 1;
        } else {
            write_pair(deleted, before + k - to, p, words::index_of(word));
        }
    }
    to
}

// Of the `kept_count` checkpoints of process p those that a pin names stay; a pin names each before place `from`. The result says how many stay; the pairs of the others
// go after those of the `before` that were deleted before them.
pub fn collect(
    w: &mut [u16],
    p: usize,
    from: usize,
    kept_count: usize,
    pins: [u16; PROCESSES],
    deleted: &mut [u16],
    before: usize,
) -> usize
    requires w_len { (length w.old ≡ state_size) × (p < most_processes) × (from ≤ kept_count) × (kept_count ≤ most_processes) × Used w.old p kept_count × AllPinned w.old p (pin_row pins) from }
    requires kept_count_in_bounds { (2 * before + 2 * kept_count ≤ length deleted.old) × (before ≤ kept_places) }
    ensures collected { Collected w.old p kept_count (pin_row pins) w.new result }
    ensures deleted_after { deleted.new ≡ sets deleted.old (2 * before) (pairs (listed p (select (λ c. not (is_pinned (pin_row pins) c)) (table kept_count (checkpoint_in w.old p))))) }
    ensures kept_count_value { kept_count ≡ result + length (select (λ c. not (is_pinned (pin_row pins) c)) (table kept_count (checkpoint_in w.old p))) }
{
    let first = first_unpinned(w, p, from, kept_count, pins);
    let to = split(w, p, first, kept_count, pins, deleted, before);
    clear_from(w, p, to, kept_count);
    to
}
