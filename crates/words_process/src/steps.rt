// A checkpoint of a process, and a receipt at it. The caller has refused what is to be refused.
ghost use Rattle.std.specs.Prelude.{◌≡◌, ◌∷◌, ◌++◌, ◌+◌, ◌*◌, ◌≤◌, ◌<◌};
ghost use Rattle.laws.specs.Basics.{true, [], length, sets, pick};
ghost use Rattle.laws.specs.Lists.{select, table};
ghost use Rattle.model.specs.{Words.basic, Words.entry, Words.is_pinned, Words.blocks_of, Words.most_processes, Words.most_interval, Words.most_blocks, Sound.sound};
ghost use Rattle.model.specs.Steps.{listed, settled, gone, deletions, billed, advanced, checkpointed, taken_vector, risen};
ghost use Rattle.words_process.specs.{receipts.Receipt.vector_first, Kept.stored_puts, Kept.Used, Kept.AllPinned, Moves.disk_in, Moves.Moves, Pins.pin_row};
ghost use Rattle.whole_runs.specs.Outcomes.{pairs};
ghost use Rattle.words.specs.Layout.{word, count_of, kept_count_at_of, mark_at, blocks_at_of, part_at, interval_of, vector_in, checkpoint_in, run_of, state_size};
ghost use Rattle.words.specs.{Parts.process_in, Puts.puts, Puts.one, Puts.vector_put};
ghost use Rattle.words_process.specs.Steps.{stored_in, settled_part, unpinned_in, received};

use model::{CheckpointIndex, Interval, PROCESSES};
use words::places;

// Why a checkpoint is stored. (0 is the initial one's.)
const BASIC: u16 = 1;

const FORCED: u16 = 2;

// The own entry of process p.
pub fn own_of(w: &[u16], p: usize) -> Interval
    requires { (length w.now ≡ state_size) × (p < most_processes) }
    ensures { result ≡ interval_of (word w.now (part_at p + p)) }
{
    words::interval_of(w[places::PARTS + places::PART * p + p])
}

fn entry_then(known: Interval, own: bool) -> Interval
    requires { own ≡ true → known.0 < most_interval }
    ensures { result.0 ≡ pick own (known.0 + 1) known.0 }
{
    if own { Interval(known.0 + 1) } else { known }
}

// v with 1 added to entry i. Each entry is written, changed or not: what is put into the words as a row is read as a row without delay.
fn advanced(v: [Interval; PROCESSES], i: usize) -> [Interval; PROCESSES]
    requires { (i < most_processes) × ((entry v i).0 < most_interval) }
    ensures { result ≡ advanced i v }
{
    let mut then = v;
    for f in 0..PROCESSES {
        let known = v[f];
        let entry = entry_then(known, f == i);
        then[f] = entry;
    }
    then
}

// If `stores`, the checkpoint goes to place k of process i, and the sent mark is cleared.
fn store_if(
    w: &mut [u16],
    i: usize,
    stores: bool,
    k: usize,
    index: CheckpointIndex,
    cause: u16,
    vector: [Interval; PROCESSES],
)
    requires { (length w.old ≡ state_size) × (i < most_processes) × (stores ≡ true → (k < most_processes) × (index.0 < most_interval)) }
    ensures { w.new ≡ pick stores (puts w.old (stored_puts i k index cause vector ++ one (mark_at i) 0 ∷ [])) w.old }
{
    if stores {
        crate::kept::store(w, i, k, index, cause, vector);
        w[places::MARKS + i] = 0;
    }
}

// How many checkpoints a process keeps, where `stay` of the old ones stay.
fn kept_count_then(stores: bool, stay: usize) -> u16
    requires { stay ≤ most_processes }
    ensures { result ≡ stay + pick stores 1 0 }
{
    if stores { stay as u16 + 1 } else { stay as u16 }
}

// Process i has these pins: what none of them names is deleted, and then, if `stores`, the checkpoint is stored after those that stay. A pin names each before place
// `from`. The result says how many are deleted.
fn settle(
    w: &mut [u16],
    i: usize,
    pins: [u16; PROCESSES],
    from: usize,
    stores: bool,
    index: CheckpointIndex,
    cause: u16,
    vector: [Interval; PROCESSES],
    deleted: &mut [u16],
) -> usize
    requires w_len { (length w.old ≡ state_size) × (i < most_processes) × (stores ≡ true → index.0 < most_interval) × ((disk_in w.old).written ≤ most_blocks) × ((disk_in w.old).deleted ≤ most_blocks) }
    requires from_bound { (from ≤ word w.old (kept_count_at_of i)) × (word w.old (kept_count_at_of i) ≤ most_processes) × Used w.old i (word w.old (kept_count_at_of i)) × AllPinned w.old i (pin_row pins) from }
    requires i_len_bound { (stores ≡ true → length (select (is_pinned (pin_row pins)) (table (word w.old (kept_count_at_of i)) (checkpoint_in w.old i))) < most_processes) × (2 * word w.old (kept_count_at_of i) ≤ length deleted.old) }
    ensures moves { Moves w.old i (settled_part w.old i (pin_row pins) stores (stored_in w.old i index cause vector)) (billed (disk_in w.old) (pick stores (word w.old (blocks_at_of i)) 0) (result * word w.old (blocks_at_of i))) w.new }
    ensures deleted_after { deleted.new ≡ sets deleted.old 0 (pairs (listed i (unpinned_in w.old i (pin_row pins)))) }
    ensures value { result ≡ length (unpinned_in w.old i (pin_row pins)) }
{
    let kept_count = w[places::KEPT + i] as usize;
    let blocks = w[places::BLOCKS + i];
    words::put_row(w, places::PINS + places::PART * i, pins);
    let stay = crate::kept::collect(w, i, from, kept_count, pins, deleted, 0);
    store_if(w, i, stores, stay, index, cause, vector);
    w[places::KEPT + i] = kept_count_then(stores, stay);
    crate::disk::bill(w, stores, kept_count - stay, blocks);
    kept_count - stay
}

// Process i takes a checkpoint. The pins that do not move name each of its checkpoints but the last, which the own pin named. The result says how many are deleted.
pub fn checkpoint(w: &mut [u16], i: usize, deleted: &mut [u16]) -> usize
    requires { (sound (run_of w.old) ≡ true) × (i < count_of w.old) × (word w.old (part_at i + i) < most_interval) × (2 * count_of w.old * count_of w.old ≤ length deleted.old) }
    ensures moves { Moves w.old i (settled (checkpointed basic i (process_in w.old i))) (billed (disk_in w.old) (word w.old (blocks_at_of i)) (blocks_of (gone (checkpointed basic i (process_in w.old i))))) w.new }
    ensures deleted_after { deleted.new ≡ sets deleted.old 0 (pairs (deletions i (checkpointed basic i (process_in w.old i)))) }
    ensures value { result ≡ length (deletions i (checkpointed basic i (process_in w.old i))) }
{
    let vector = words::vector_at(w, places::PARTS + places::PART * i);
    let old = words::row_at(w, places::PINS + places::PART * i);
    let kept_count = w[places::KEPT + i] as usize;
    let index = words::rows::vector::live_index(vector[i]);
    let pins = crate::pins::taken_pins(0, old, i, words::pin_word(index));
    words::put_vector(w, places::PARTS + places::PART * i, advanced(vector, i));
    settle(
        w,
        i,
        pins,
        kept_count - 1,
        true,
        index,
        BASIC,
        vector,
        deleted,
    )
}

// What a receipt answers: the set of the entries that rose, and how many checkpoints were deleted.
#[derive(Clone, Copy)]
pub struct Received {
    pub rose: u16,
    pub gone: usize,
}

// The own pin that the entries that rise are given: that of the checkpoint which is stored first, if one is.
fn own_pin(stores: bool, old: u16, index: CheckpointIndex) -> u16
    requires { stores ≡ true → index.0 < most_interval }
    ensures { result ≡ pick stores (index.0 + 1) old }
{
    if stores { words::pin_word(index) } else { old }
}

// The vector of process i takes the carried one in; if `stores`, 1 is added to its own entry first. The result is the set of the entries that rose.
fn take_vector(
    w: &mut [u16],
    i: usize,
    stores: bool,
    vector: [Interval; PROCESSES],
    carried: [Interval; PROCESSES],
) -> u16
    requires { (length w.old ≡ state_size) × (i < most_processes) × (vector ≡ vector_in w.old (part_at i)) × (stores ≡ true → (entry vector i).0 < most_interval) }
    ensures w_after { w.new ≡ puts w.old (vector_put (part_at i) (taken_vector (vector_first stores i vector) carried) ∷ []) }
    ensures value { result ≡ risen (vector_first stores i vector) carried }
{
    if stores {
        words::put_vector(w, places::PARTS + places::PART * i, advanced(vector, i));
    }
    crate::taking_in::take_in(w, places::PARTS + places::PART * i, carried)
}

// Process i takes a carried vector in. If `stores`, it takes a forced checkpoint first.
pub fn receive(
    w: &mut [u16],
    i: usize,
    stores: bool,
    carried: [Interval; PROCESSES],
    deleted: &mut [u16],
) -> Received
    requires { (sound (run_of w.old) ≡ true) × (i < count_of w.old) × (stores ≡ true → word w.old (part_at i + i) < most_interval) × (2 * count_of w.old * count_of w.old ≤ length deleted.old) }
    ensures moves { Moves w.old i (settled (received i stores carried (process_in w.old i))) (billed (disk_in w.old) (pick stores (word w.old (blocks_at_of i)) 0) (blocks_of (gone (received i stores carried (process_in w.old i))))) w.new }
    ensures rose_value { result.rose ≡ risen (vector_first stores i (vector_in w.old (part_at i))) carried }
    ensures deleted_after { deleted.new ≡ sets deleted.old 0 (pairs (deletions i (received i stores carried (process_in w.old i)))) }
    ensures gone_value { result.gone ≡ length (deletions i (received i stores carried (process_in w.old i))) }
{
    let vector = words::vector_at(w, places::PARTS + places::PART * i);
    let old = words::row_at(w, places::PINS + places::PART * i);
    let index = words::rows::vector::live_index(vector[i]);
    let rose = take_vector(w, i, stores, vector, carried);
    let pins = crate::pins::taken_pins(rose, old, i, own_pin(stores, old[i], index));
    let gone = settle(w, i, pins, 0, stores, index, FORCED, vector, deleted);
    Received { rose, gone }
}
