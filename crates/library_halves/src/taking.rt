// Which record is taken next, and all of them. `a` records of the first half and `b` of the second were taken; their log has one word each.
ghost use Rattle.std.specs.Prelude.{◌≡◌, ◌+◌, ◌*◌, ◌/◌, ◌%◌, ◌≤◌};
ghost use Rattle.laws.specs.Basics.{true, List, leb, length, pick};
ghost use Rattle.model.specs.Words.{most_processes};
ghost use Rattle.theory_merges.specs.{Halves.HalfEvent, Halves.message_number, Merge.after_first_byte, Merge.most_of_half};
ghost use Rattle.trace.specs.Answers.{record_at};
ghost use Rattle.library_halves.specs.{Log.Logged, Taking.ready_at, Taking.Steps, Taking.Takes};

use crate::{both, log, record};
use model::Refusal;
use record::{COUNTS, Half};

// The half that the next record comes from, and its word in the merged trace: each of the two has one.
#[derive(Clone, Copy)]
pub enum Step {
    First(u32),
    Second(u32),
}

// Whether the message that an argument names was sent.
fn is_sent(argument: u32, log: &[u32]) -> bool
    requires { length log.now ≤ 2 * most_of_half }
    ensures { (l : List HalfEvent) → Logged l log.now → length log.now ≡ length l → result ≡ leb 1 (message_number l (argument / 2097152) (argument % 2097152)) }
{
    let t = log::tally_all(log, argument / COUNTS, argument % COUNTS);
    t.sent.is_some()
}

// Whether a half has a record left after `at` of them, and it is ready.
fn ready_at(half: &[u8], at: usize, log: &[u32]) -> bool
    requires { (1 + 4 * at ≤ length half.now) × (length log.now ≤ 2 * most_of_half) }
    ensures at_len { result ≡ true → length (record_at half.now (1 + 4 * at)) ≡ 4 }
    ensures value { (l : List HalfEvent) → Logged l log.now → length log.now ≡ length l → result ≡ ready_at l half.now at }
{
    let part = trace::record_part(half, 1 + 4 * at);
    if part.len() != 4 {
        return false;
    }
    let r = trace::read_fields(part);
    if r.kind == 2 || r.kind == 3 {
        return is_sent(r.argument, log);
    }
    true
}

// "the chosen four bytes are a part of whichever half they came from": the part lives as long as both halves are lent.
fn chosen<'a>(first: &'a [u8], second: &'a [u8], side: bool, a: usize, b: usize) -> &'a [u8]
    requires { (1 + 4 * a ≤ length first.now) × (1 + 4 * b ≤ length second.now) }
    ensures { result.now ≡ pick side (record_at first.now (1 + 4 * a)) (record_at second.now (1 + 4 * b)) }
{
    if side {
        trace::record_part(first, 1 + 4 * a)
    } else {
        trace::record_part(second, 1 + 4 * b)
    }
}

// "The merge takes the next record from the first half if it is ready, otherwise from the second". Why it stops, where it cannot.
fn take_next<'a>(
    first: &'a [u8],
    second: &'a [u8],
    n: usize,
    set: u32,
    a: usize,
    b: usize,
    log: &[u32],
) -> Result<Step, Refusal>
    requires { (n ≤ most_processes) × (1 + 4 * a ≤ length first.now) × (1 + 4 * b ≤ length second.now) × (length log.now ≤ 2 * most_of_half) }
    ensures { (l : List HalfEvent) → Logged l log.now → length log.now ≡ length l → Steps n set l first.now second.now a b result }
{
    if ready_at(first, a, log) {
        let half = Half { n, set, side: true };
        let part = chosen(first, second, true, a, b);
        return record::judge(half, part, log).map(Step::First);
    }
    if ready_at(second, b, log) {
        let half = Half {
            n,
            set,
            side: false,
        };
        let part = chosen(first, second, false, a, b);
        return record::judge(half, part, log).map(Step::Second);
    }
    Err(Refusal::NeitherReady)
}

// All records: as many iterations as both halves have records.
pub(crate) fn take_all<'a>(
    first: &'a [u8],
    second: &'a [u8],
    n: usize,
    set: u32,
    log: &mut [u32],
) -> Result<(), Refusal>
    requires n_le_most_processes { (n ≤ most_processes) × (1 ≤ length first.now) × (1 ≤ length second.now) }
    requires second_in_bounds { (length (after_first_byte first.now) / 4 + length (after_first_byte second.now) / 4 ≤ length log.old) × (length log.old ≤ 2 * most_of_half) }
    ensures { Takes n set first.now second.now (length (after_first_byte first.now) / 4 + length (after_first_byte second.now) / 4) log.new result }
{
    let mut a = 0;
    let mut b = 0;
    for taken in 0..both::how_many(first) + both::how_many(second) {
        match take_next(first, second, n, set, a, b, &log[..taken])? {
            Step::First(word) => {
                log[taken] = word;
                a += 1;
            }
            Step::Second(word) => {
                log[taken] = word;
                b += 1;
            }
        }
    }
    Ok(())
}
