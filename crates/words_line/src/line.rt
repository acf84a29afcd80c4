// The line's member of a process. Its states are the checkpoints that it keeps, in their places, and after them the live state.
ghost use Rattle.std.specs.Prelude.{◌≡◌, ◌+◌, ◌-◌, ◌≤◌, ◌<◌};
ghost use Rattle.laws.specs.Basics.{length, replicate, pick};
ghost use Rattle.model.specs.Words.{most_processes};
ghost use Rattle.words.specs.Layout.{word, kept_count_at_of, part_at, state_size};
ghost use Rattle.words_line.specs.Line.{limits_in, past_kept, past_latest, has_members, pasts_in, index_in_of, indexes_in, OwnSome, KeptCountMost, KeptUsed, AllUsed, AllFound};

use model::{CheckpointIndex, Interval, PROCESSES};
use words::places;

// The greatest entry for a process that a state may have: "less than f's current own entry" where it has failed. Where it has not, no entry is above the own entry.
fn limit_of(failed: bool, own: Interval) -> Interval
    requires { 1 ≤ own.0 }
    ensures { result ≡ record { 0 = pick failed (own.0 - 1) own.0 } }
{
    if failed { Interval(own.0 - 1) } else { own }
}

// The limit of each entry; bit f of the failed set stands for process f, which is one of n.
pub fn limits_of(w: &[u16], n: usize, failed: u32) -> [Interval; PROCESSES]
    requires { (length w.now ≡ state_size) × (n ≤ most_processes) × OwnSome n w.now }
    ensures { result ≡ limits_in w.now n failed }
{
    let mut limits = [Interval(0); PROCESSES];
    let mut left = failed;
    for f in 0..n {
        let own = words::interval_of(w[places::PARTS + places::PART * f + f]);
        let limit = limit_of(left % 2 == 1, own);
        limits[f] = limit;
        left = left / 2;
    }
    limits
}

// One above the place of the latest of the first `kept_count` kept checkpoints that is within the limits, 0 if there is none.
fn latest_kept(w: &[u16], p: usize, kept_count: usize, limits: [Interval; PROCESSES]) -> usize
    requires { (length w.now ≡ state_size) × (p < most_processes) × (kept_count ≤ most_processes) }
    ensures { result ≡ past_kept w.now limits p kept_count }
{
    let mut past = kept_count;
    while 0 < past {
        let vector = words::vector_at(
            w,
            places::STORED + places::PART * p + places::ROW * (past - 1),
        );
        let within = words_sound::rows::is_within(vector, limits);
        if within {
            return past;
        }
        past -= 1;
    }
    0
}

// One above the place of the latest state that is within the limits, 0 if there is none. The live state is tried first.
fn latest_allowed(w: &[u16], p: usize, limits: [Interval; PROCESSES]) -> usize
    requires { (length w.now ≡ state_size) × (p < most_processes) × (word w.now (kept_count_at_of p) ≤ most_processes) }
    ensures { result ≡ past_latest w.now limits p }
{
    let kept_count = w[places::KEPT + p] as usize;
    let live = words::vector_at(w, places::PARTS + places::PART * p);
    let within = words_sound::rows::is_within(live, limits);
    if within {
        return kept_count + 1;
    }
    latest_kept(w, p, kept_count, limits)
}

// One above the place of the member of each of n processes goes into the lent table, which holds zeros. The result says whether the line rule accepts a state of each.
// The table is lent, and then read place by place: a table by value is copied as rows, and such a copy waits for the stores of its places.
pub fn find_members(w: &[u16], n: usize, limits: [Interval; PROCESSES], pasts: &mut [u16]) -> bool
    requires { (length w.now ≡ state_size) × (n ≤ most_processes) × KeptCountMost n w.now × (pasts.old ≡ replicate most_processes 0) }
    ensures value { result ≡ has_members w.now n limits }
    ensures pasts_after { pasts.new ≡ pasts_in w.now n limits }
{
    let mut all = true;
    for p in 0..n {
        let past = latest_allowed(w, p, limits);
        pasts[p] = past as u16;
        all = all & (past != 0);
    }
    all
}

// The index of the state of process p in the place before this one.
fn index_in(w: &[u16], p: usize, past: usize) -> CheckpointIndex
    requires { (length w.now ≡ state_size) × (p < most_processes) × (1 ≤ past) × (word w.now (kept_count_at_of p) ≤ most_processes) × (1 ≤ word w.now (part_at p + p)) × KeptUsed p w.now }
    ensures { result ≡ index_in_of w.now p past }
{
    let kept_count = w[places::KEPT + p] as usize;
    if past <= kept_count {
        words::index_of(w[places::INDEXES + places::PART * p + (past - 1)])
    } else {
        words::rows::vector::live_index(words::interval_of(w[places::PARTS + places::PART * p + p]))
    }
}

// The indexes of the members of n processes, 0 at n and above.
pub fn indexes_of(w: &[u16], n: usize, pasts: &[u16]) -> [CheckpointIndex; PROCESSES]
    requires { (length w.now ≡ state_size) × (n ≤ most_processes) × OwnSome n w.now × KeptCountMost n w.now × AllUsed n w.now × AllFound n pasts.now }
    ensures { result ≡ indexes_in w.now n pasts.now }
{
    let mut indexes = [CheckpointIndex(0); PROCESSES];
    for p in 0..n {
        let past = pasts[p] as usize;
        let index = index_in(w, p, past);
        indexes[p] = index;
    }
    indexes
}
