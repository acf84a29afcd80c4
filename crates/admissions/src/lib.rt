// Whether a call is refused, and why, by the counts of a state, what the call names and how long the lists are that it is lent: the tests that several functions ask. The calls of the library, the replay of
// a trace and the judge of a foreign one ask the same.

#![tactic(auto)]

ghost use Rattle.std.specs.Prelude.{◌≡◌, ◌||◌, ◌*◌, ◌/◌, ◌^◌, ◌≤◌};
ghost use Rattle.laws.specs.Basics.{ltb, leb};
ghost use Rattle.model.specs.Words.{most_interval, most_processes};
ghost use Rattle.admissions.specs.Admissions.{past_most, send_admission_of, recovery_admission_of};

use model::{Interval, LAST_INTERVAL, LAST_MESSAGE, MESSAGES, MOST_BLOCKS, Refusal};

// Nothing, or why a call is refused.
pub type Admission = Result<(), Refusal>;

// The own entry is that of the last interval: no checkpoint can follow.
pub fn is_last_interval(own: Interval) -> bool
    ensures { result ≡ leb most_interval own.0 }
{
    LAST_INTERVAL <= own.0
}

// One more checkpoint of `blocks` blocks would take the blocks written past the bound. The difference is tested: no sum of a free number is made.
#[tactic(auto, unfolding(crate::specs::Admissions::past_most))]
pub fn is_past_bound(written: u64, blocks: u16) -> bool
    ensures { result ≡ past_most written blocks }
{
    MOST_BLOCKS - u64::from(blocks) < written
}

// Whether a send is refused, and why, where `underway` messages are under way and `last` is the last number used.
#[tactic(auto, unfolding(crate::specs::Admissions::send_admission_of))]
pub fn send_admission(
    sender: usize,
    receiver: usize,
    n: usize,
    underway: usize,
    last: u32,
) -> Admission
    ensures { result ≡ send_admission_of sender receiver n underway last }
{
    if n <= sender || n <= receiver {
        return Err(Refusal::NoSuchProcess);
    }
    if sender == receiver {
        return Err(Refusal::SenderIsReceiver);
    }
    if MESSAGES <= underway {
        return Err(Refusal::TooManyUnderWay);
    }
    if LAST_MESSAGE <= last {
        return Err(Refusal::MessageNumbersUsed);
    }
    Ok(())
}

// What is left of a set once its lowest p bits are gone. A set has 32 bits.
pub fn above(set: u32, p: usize) -> u32
    ensures { result ≡ set / (2 ^ p) }
{
    if p < 32 { set >> p } else { 0 }
}

// The failed set has a bit at n or above.
#[tactic(auto, using(crate::proofs::Outside::bits_left))]
pub fn is_outside(failed: u32, n: usize) -> bool
    ensures { result ≡ leb (2 ^ n) failed }
{
    let left = above(failed, n);
    1 <= left
}

// Whether a line or a recovery for a failed set is refused. A record's set may have more than 16 bits.
#[tactic(auto, unfolding(crate::specs::Admissions::recovery_admission_of))]
pub fn recovery_admission(failed: u32, n: usize) -> Admission
    ensures { result ≡ recovery_admission_of n failed }
{
    if is_outside(failed, n) {
        return Err(Refusal::NoSuchFailedProcess);
    }
    Ok(())
}

// A deletion list has room for two numbers of each checkpoint that n processes keep, at most n each.
pub fn are_deletions_short(length: usize, n: usize) -> bool
    requires { n ≤ most_processes }
    ensures { result ≡ ltb length (2 * n * n) }
{
    length < 2 * n * n
}

// A line list has room for one index of each process.
pub fn is_line_short(length: usize, n: usize) -> bool
    ensures { result ≡ ltb length n }
{
    length < n
}

// One of the two is too short.
pub fn is_too_short(deleted: usize, line: usize, n: usize) -> bool
    requires { n ≤ most_processes }
    ensures { result ≡ (ltb deleted (2 * n * n) || ltb line n) }
{
    are_deletions_short(deleted, n) || is_line_short(line, n)
}
