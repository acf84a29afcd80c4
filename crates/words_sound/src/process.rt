// What a sound state asks of one process.
ghost use Rattle.std.specs.Prelude.{◌≡◌, ◌&&◌, ◌+◌, ◌-◌, ◌≤◌, ◌<◌};
ghost use Rattle.laws.specs.Basics.{eqb, ltb, leb, length, get_or, pick};
ghost use Rattle.laws.specs.{Lists.table, Search.all_below};
ghost use Rattle.model.specs.{Words.entry, Words.most_processes, Sound.cause_sound};
ghost use Rattle.words.specs.Layout.{word, count_of, part_at, pins_at_of, cause_at_of, stored_at, row_in, state_size};
ghost use Rattle.words_sound.specs.Test.{own_in, row_within_of, pin_in, unused_pins, index_in_of, index_before, kept_fits, pin_fits, counts_fit, part_fits, limits_in, Judged};

use model::{CheckpointIndex, Interval, PROCESSES};
use words::places;

// What the cause of a checkpoint may be at most.
const MOST_CAUSE: u16 = 2;

pub fn number_of(x: u16) -> usize
    ensures { result ≡ x }
{
    x as usize
}

// The word of the index of the last stored checkpoint of a process, by the word of its own entry.
fn last_word(own: u16) -> u16
    ensures { result ≡ own - 1 + 1 }
{
    let current = words::interval_of(own);
    let last = words::rows::vector::last_stored(current);
    words::pin_word(last)
}

// "causes 0 to 2, 0 exactly at index 0"
fn is_cause_sound(cause: u16, index: CheckpointIndex) -> bool
    ensures { result ≡ cause_sound index.0 cause }
{
    if index.0 == 0 {
        cause == 0
    } else {
        (1 <= cause) & (cause <= MOST_CAUSE)
    }
}

// The numbers of the kept checkpoint in place k, the word of whose index is x: it is later than the one before, whose word is `before`, its own entry is its index, and
// its cause goes with it.
fn is_kept_numbered(w: &[u16], p: usize, k: usize, x: u16, before: u16) -> bool
    requires { (length w.now ≡ state_size) × (p < most_processes) × (k < most_processes) }
    ensures { result ≡ (ltb before x && eqb (word w.now (stored_at p k + p)) (x - 1) && cause_sound (x - 1) (word w.now (cause_at_of p k))) }
{
    if x <= before {
        return false;
    }
    let own_at = places::stored_at(p, k) + p;
    let own = words::interval_of(w[own_at]);
    let index = words::index_of(x);
    let cause_at = places::cause_at(p, k);
    let caused = is_cause_sound(w[cause_at], index);
    (own.0 == index.0) & caused
}

// The kept checkpoint in place k, the word of whose index is x: its numbers, and a pin that names it.
fn is_kept_sound(w: &[u16], p: usize, k: usize, x: u16, before: u16, pins: [u16; PROCESSES]) -> bool
    requires { (length w.now ≡ state_size) × (p < most_processes) × (k < most_processes) × (x ≡ index_in_of w.now p k) × (before ≡ index_before w.now p k) × (pins ≡ row_in w.now (pins_at_of p)) }
    ensures { result ≡ kept_fits w.now p k }
{
    let numbered = is_kept_numbered(w, p, k, x, before);
    if !numbered {
        return false;
    }
    crate::rows::is_among(pins, x)
}

// The checkpoints that process p keeps, one after the other: each is sound, the last is the last one stored, each pin names one of them or none, and no entry
// of theirs is above the own one there. What is off is gathered in rows, from `first` on, and tested once.
fn are_kept_sound(
    w: &[u16],
    p: usize,
    kept_count: usize,
    owns: [Interval; PROCESSES],
    first: [u16; PROCESSES],
) -> bool
    requires { (length w.now ≡ state_size) × (p < most_processes) × (kept_count ≤ most_processes) × (owns ≡ limits_in w.now) × (1 ≤ own_in w.now p) }
    ensures { result ≡ (all_below kept_count (kept_fits w.now p)
        && eqb (index_before w.now p kept_count) (own_in w.now p)
        && ((all_below most_processes (λ f. eqb (get_or first f 0) 0) && all_below kept_count (λ k. row_within_of w.now (stored_at p k))) && all_below most_processes (pin_fits w.now p kept_count))) }
{
    let pins_at = places::pins_at(p);
    let pins = words::row_at(w, pins_at);
    // the pins that no checkpoint so far has met
    let mut unmet = pins;
    let mut off = first;
    let mut before: u16 = 0;
    for k in 0..kept_count {
        let at = places::index_at(p, k);
        let x = w[at];
        let ok = is_kept_sound(w, p, k, x, before, pins);
        if !ok {
            return false;
        }
        let left = crate::rows::without(unmet, pins, x);
        unmet = left;
        let vector_at = places::stored_at(p, k);
        let vector = words::vector_at(w, vector_at);
        let over = crate::rows::over_by(off, vector, owns);
        off = over;
        before = x;
    }
    let own_at = places::part_at(p) + p;
    let last = last_word(w[own_at]);
    if before != last {
        return false;
    }
    crate::rows::are_zero(off, unmet)
}

// "Each process keeps 1 to n checkpoints"; its block count is at least 1, its own entry too, and its own pin names the last one stored.
fn are_numbers_sound(w: &[u16], p: usize, n: usize) -> bool
    requires { (length w.now ≡ state_size) × (n ≡ count_of w.now) × (p < most_processes) }
    ensures { result ≡ (counts_fit w.now p && leb 1 (own_in w.now p) && eqb (pin_in w.now p p) (own_in w.now p)) }
{
    let kept_count_at = places::kept_count_at(p);
    let kept_count = number_of(w[kept_count_at]);
    let blocks_at = places::blocks_at(p);
    let blocks = w[blocks_at];
    let own_at = places::part_at(p) + p;
    let own = w[own_at];
    let last = last_word(own);
    let pin_at = places::pins_at(p) + p;
    let pin = w[pin_at];
    (1 <= kept_count) & (kept_count <= n) & (1 <= blocks) & (1 <= own) & (pin == last)
}

// What is off in the vector and the pins of process p: 0 where the entry is not above the own one and the pin not above what it may be at most, in `columns`.
fn rows_off(
    w: &[u16],
    p: usize,
    owns: [Interval; PROCESSES],
    columns: [u16; PROCESSES],
) -> [u16; PROCESSES]
    requires { (length w.now ≡ state_size) × (p < most_processes) × (owns ≡ limits_in w.now) × (columns ≡ table most_processes (λ f. pick (eqb (entry owns f).0 0) 0 65535)) }
    ensures { all_below most_processes (λ f. eqb (get_or result f 0) 0) ≡ (row_within_of w.now (part_at p) && unused_pins w.now p) }
{
    let vector_at = places::part_at(p);
    let vector = words::vector_at(w, vector_at);
    let pins_at = places::pins_at(p);
    let pins = words::row_at(w, pins_at);
    let outside = crate::rows::row_over(pins, columns);
    crate::rows::over_by(outside, vector, owns)
}

pub fn is_sound(
    w: &[u16],
    p: usize,
    n: usize,
    owns: [Interval; PROCESSES],
    columns: [u16; PROCESSES],
) -> bool
    requires { Judged w.now n owns × (p < n) × (columns ≡ table most_processes (λ f. pick (eqb (entry owns f).0 0) 0 65535)) }
    ensures { result ≡ (counts_fit w.now p && part_fits w.now p) }
{
    let numbers = are_numbers_sound(w, p, n);
    if !numbers {
        return false;
    }
    let first = rows_off(w, p, owns, columns);
    let kept_count_at = places::kept_count_at(p);
    let kept_count = number_of(w[kept_count_at]);
    are_kept_sound(w, p, kept_count, owns, first)
}
