// What is judged of both halves, the set and the result buffer before any record: 1, 3, 12, 23, 7, 13, 17, in this order.
ghost use Rattle.std.specs.Prelude.{◌≡◌, ◌+◌, ◌/◌};
ghost use Rattle.laws.specs.Basics.{List, ℕ, ltb, length};
ghost use Rattle.theory_merges.specs.Merge.{count_of, after_first_byte, bad_count, left_over_of, too_many, merge_refusal};
ghost use Rattle.admissions.specs.Admissions.{refusal_of};

use crate::MOST_OF_HALF;
use model::{PROCESSES, Refusal};

// "The first byte is n"; 0 where there is none.
#[tactic(auto, unfolding(theory_merges::specs::Merge::count_of))]
pub(crate) fn count_of(half: &[u8]) -> usize
    ensures { result ≡ count_of half.now }
{
    match half.split_first() {
        Some((n, _)) => usize::from(*n),
        None => 0,
    }
}

// "Then records": the bytes after the first one.
#[tactic(auto, unfolding(theory_merges::specs::Merge::after_first_byte))]
fn after_first_byte<'a>(half: &'a [u8]) -> &'a [u8]
    ensures { result.now ≡ after_first_byte half.now }
{
    match half.split_first() {
        Some((_, records)) => records,
        None => half,
    }
}

// How many records a half has.
pub(crate) fn how_many(half: &[u8]) -> usize
    ensures { result ≡ length (after_first_byte half.now) / 4 }
{
    after_first_byte(half).len() / 4
}

// A count outside 1 to 16. A half without a first byte is judged later.
#[tactic(auto, using(crate::proofs::Rules::bad_is))]
fn bad_count(half: &[u8]) -> bool
    ensures { result ≡ bad_count half.now }
{
    let n = count_of(half);
    !half.is_empty() && (n == 0 || PROCESSES < n)
}

// A result buffer shorter than both halves together. The two lengths are not added, so that nothing wraps.
fn is_short(room: usize, one: usize, other: usize) -> bool
    ensures { result ≡ ltb room (one + other) }
{
    room < one || room - one < other
}

// "one to three bytes left over"
fn left_over(half: &[u8]) -> bool
    ensures { result ≡ left_over_of half.now }
{
    after_first_byte(half).len() % 4 != 0
}

// "more than 4,096 records"
fn too_many(half: &[u8]) -> bool
    ensures { result ≡ too_many half.now }
{
    MOST_OF_HALF < how_many(half)
}

// All of it, where the result buffer has `room` bytes.
#[tactic(auto, unfolding(theory_merges::specs::Merge::merge_refusal, model::specs::Refusals::first_of, admissions::specs::Admissions::refusal_of))]
pub(crate) fn judge_halves(
    first: &[u8],
    second: &[u8],
    set: u32,
    room: usize,
) -> Result<(), Refusal>
    ensures { (buffer : List ℕ) → length buffer ≡ room → refusal_of result ≡ merge_refusal first.now second.now set buffer }
{
    let n = count_of(first);
    if bad_count(first) || bad_count(second) {
        return Err(Refusal::CountOutsideRange);
    }
    if is_short(room, first.len(), second.len()) {
        return Err(Refusal::ListTooShort);
    }
    if first.is_empty() || second.is_empty() {
        return Err(Refusal::NoFirstByte);
    }
    if n != count_of(second) {
        return Err(Refusal::HalvesMismatch);
    }
    if admissions::is_outside(set, n) {
        return Err(Refusal::NoSuchFailedProcess);
    }
    if left_over(first) || left_over(second) {
        return Err(Refusal::LeftOverBytes);
    }
    if too_many(first) || too_many(second) {
        return Err(Refusal::TooManyRecords);
    }
    Ok(())
}
