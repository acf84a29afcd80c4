// One process after a recovery.
ghost use Rattle.std.specs.Prelude.{◌≡◌, ◌+◌, ◌*◌, ◌≤◌, ◌<◌};
ghost use Rattle.laws.specs.Basics.{length, sets};
ghost use Rattle.model.specs.{Steps.listed, Steps.billed, Words.most_processes, Words.most_blocks, Words.kept_places};
ghost use Rattle.whole_runs.specs.Outcomes.{pairs};
ghost use Rattle.words.specs.Layout.{word, kept_count_at_of, blocks_at_of, state_size};
ghost use Rattle.words_process.specs.{Kept.Used, Moves.disk_in, Moves.Moves, Pins.pin_row, Steps.unpinned_in};
ghost use Rattle.in_place_recover.specs.Restored.{restored_part, restored_gone, Restorable, pinned_part};

use model::{Interval, PROCESSES};
use words::places;

// Process p has these pins: what none of them names is deleted, and its pairs go after those of the `before` that were deleted before. The result says how many are
// deleted.
fn settle(
    w: &mut [u16],
    p: usize,
    pins: [u16; PROCESSES],
    deleted: &mut [u16],
    before: usize,
) -> usize
    requires w_len { (length w.old ≡ state_size) × (p < most_processes) × ((disk_in w.old).written ≤ most_blocks) × ((disk_in w.old).deleted ≤ most_blocks) }
    requires p_bound { (word w.old (kept_count_at_of p) ≤ most_processes) × Used w.old p (word w.old (kept_count_at_of p)) }
    requires p_in_bounds { (2 * before + 2 * word w.old (kept_count_at_of p) ≤ length deleted.old) × (before ≤ kept_places) }
    ensures moves { Moves w.old p (pinned_part w.old p (pin_row pins)) (billed (disk_in w.old) 0 (result * word w.old (blocks_at_of p))) w.new }
    ensures deleted_after { deleted.new ≡ sets deleted.old (2 * before) (pairs (listed p (unpinned_in w.old p (pin_row pins)))) }
    ensures value { result ≡ length (unpinned_in w.old p (pin_row pins)) }
{
    let kept_count = w[places::KEPT + p] as usize;
    let blocks = w[places::BLOCKS + p];
    words::put_row(w, places::PINS + places::PART * p, pins);
    let stay = words_process::kept::collect(w, p, 0, kept_count, pins, deleted, before);
    w[places::KEPT + p] = stay as u16;
    words_process::disk::bill(w, false, kept_count - stay, blocks);
    kept_count - stay
}

// A process whose member is the checkpoint in the place before this one.
fn restore_stored(
    w: &mut [u16],
    p: usize,
    past: usize,
    owns: [Interval; PROCESSES],
    deleted: &mut [u16],
    before: usize,
) -> usize
    requires w_len { (length w.old ≡ state_size) × (p < most_processes) × ((disk_in w.old).written ≤ most_blocks) × ((disk_in w.old).deleted ≤ most_blocks) }
    requires past_bound { (past ≤ word w.old (kept_count_at_of p)) × Restorable w.old p past }
    requires p_in_bounds { (2 * before + 2 * word w.old (kept_count_at_of p) ≤ length deleted.old) × (before ≤ kept_places) }
    ensures moves { Moves w.old p (restored_part w.old p past owns) (billed (disk_in w.old) 0 (result * word w.old (blocks_at_of p))) w.new }
    ensures deleted_after { deleted.new ≡ sets deleted.old (2 * before) (pairs (listed p (restored_gone w.old p past owns))) }
    ensures value { result ≡ length (restored_gone w.old p past owns) }
{
    words_line::restored::roll_back(w, p, past - 1);
    let vector = words::vector_at(w, places::PARTS + places::PART * p);
    let found = words_line::restored::find_latest(w, p, past, owns);
    let pins = words_line::restored::known_pins(vector, owns, found);
    settle(w, p, pins, deleted, before)
}

// A process that stays live: `past` is one above the place of its live state. Where no pin becomes none, nothing is to be done: a pin names each kept checkpoint still.
fn restore_live(
    w: &mut [u16],
    p: usize,
    past: usize,
    owns: [Interval; PROCESSES],
    deleted: &mut [u16],
    before: usize,
) -> usize
    requires w_len { (length w.old ≡ state_size) × (p < most_processes) × ((disk_in w.old).written ≤ most_blocks) × ((disk_in w.old).deleted ≤ most_blocks) }
    requires p_bound { (word w.old (kept_count_at_of p) < past) × Restorable w.old p past }
    requires p_in_bounds { (2 * before + 2 * word w.old (kept_count_at_of p) ≤ length deleted.old) × (before ≤ kept_places) }
    ensures moves { Moves w.old p (restored_part w.old p past owns) (billed (disk_in w.old) 0 (result * word w.old (blocks_at_of p))) w.new }
    ensures deleted_after { deleted.new ≡ sets deleted.old (2 * before) (pairs (listed p (restored_gone w.old p past owns))) }
    ensures value { result ≡ length (restored_gone w.old p past owns) }
{
    let vector = words::vector_at(w, places::PARTS + places::PART * p);
    let old = words::row_at(w, places::PINS + places::PART * p);
    let pins = words_line::restored::known_pins(vector, owns, old);
    let less = words_sound::rows::row_over(old, pins);
    if words_sound::rows::is_zero(less) {
        return 0;
    }
    settle(w, p, pins, deleted, before)
}

// Process p after the recovery: its member is in the place before `past`, `owns` are the own entries of all processes then. The pairs of what is deleted go after those
// of the `before` that were deleted before. The result says how many are deleted.
pub fn restore(
    w: &mut [u16],
    p: usize,
    past: usize,
    owns: [Interval; PROCESSES],
    deleted: &mut [u16],
    before: usize,
) -> usize
    requires w_len { (length w.old ≡ state_size) × (p < most_processes) × ((disk_in w.old).written ≤ most_blocks) × ((disk_in w.old).deleted ≤ most_blocks) }
    requires restorable { Restorable w.old p past }
    requires p_in_bounds { (2 * before + 2 * word w.old (kept_count_at_of p) ≤ length deleted.old) × (before ≤ kept_places) }
    ensures moves { Moves w.old p (restored_part w.old p past owns) (billed (disk_in w.old) 0 (result * word w.old (blocks_at_of p))) w.new }
    ensures deleted_after { deleted.new ≡ sets deleted.old (2 * before) (pairs (listed p (restored_gone w.old p past owns))) }
    ensures value { result ≡ length (restored_gone w.old p past owns) }
{
    let kept_count = w[places::KEPT + p] as usize;
    if past <= kept_count {
        restore_stored(w, p, past, owns, deleted, before)
    } else {
        restore_live(w, p, past, owns, deleted, before)
    }
}
