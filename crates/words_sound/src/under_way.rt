// What a sound state asks of the messages under way. A place before the end whose number is 0 is not in use.
ghost use Rattle.std.specs.Prelude.{◌≡◌, ◌&&◌, ◌||◌, ◌-◌, ◌≤◌, ◌<◌};
ghost use Rattle.laws.specs.Basics.{not, eqb, ltb, leb, length};
ghost use Rattle.laws.specs.{Search.all_below, Tests.all_of, Tests.count_below};
ghost use Rattle.model.specs.Words.{most_under_way};
ghost use Rattle.words.specs.Layout.{word, wide2, count_of, sender_at_of, receiver_at_of, state_size};
ghost use Rattle.words_sound.specs.Test.{number_in, number_before, message_tests, message_fits, carried_fits, messages_tests, Judged};

use crate::process;
use model::{Interval, LAST_MESSAGE, MESSAGES, PROCESSES};
use words::places;

fn wide(x: u16) -> u32
    ensures { (result ≡ x) × (result ≤ 65535) }
{
    x as u32
}

// The number of the message in place k, 0 where there is none.
fn number_in(w: &[u16], k: usize) -> u32
    requires { (length w.now ≡ state_size) × (k < most_under_way) }
    ensures { result ≡ number_in w.now k }
{
    let low_at = places::low_at(k);
    let low = wide(w[low_at]);
    let high_at = places::high_at(k);
    let high = wide(w[high_at]);
    low + 65536 * high
}

// "sender and receiver are in the run and differ"
fn are_ends_sound(w: &[u16], k: usize, n: usize) -> bool
    requires { (length w.now ≡ state_size) × (k < most_under_way) }
    ensures { result ≡ (ltb (word w.now (sender_at_of k)) n && ltb (word w.now (receiver_at_of k)) n
        && not (eqb (word w.now (sender_at_of k)) (word w.now (receiver_at_of k)))) }
{
    let sender_at = places::sender_at(k);
    let sender = process::number_of(w[sender_at]);
    let receiver_at = places::receiver_at(k);
    let receiver = process::number_of(w[receiver_at]);
    (sender < n) & (receiver < n) & (sender != receiver)
}

// The message in place k, whose number is `number`, but for its vector; the last number before it is `before`.
fn is_message_sound(w: &[u16], k: usize, n: usize, number: u32, before: u32) -> bool
    requires { (length w.now ≡ state_size) × (n ≡ count_of w.now) × (k < most_under_way) × (number ≡ number_in w.now k) × (before ≡ number_before w.now k) }
    ensures { result ≡ all_of (message_tests w.now k) }
{
    if number <= before {
        return false;
    }
    are_ends_sound(w, k, n)
}

// The messages before the end: each is sound, no entry that they carry is above the own one there, the last number is not above the last used, and they are as many as
// are said to be under way.
fn are_places_sound(w: &[u16], end: usize, n: usize, owns: [Interval; PROCESSES]) -> bool
    requires { Judged w.now n owns × (end ≤ most_under_way) }
    ensures { result ≡ (all_below end (message_fits w.now)
        && all_below end (carried_fits w.now)
        && (eqb (count_below end (λ k. not (eqb (number_in w.now k) 0))) (word w.now 1)
        && leb (number_before w.now end) (wide2 w.now 2))) }
{
    let mut over = [0u16; PROCESSES];
    let mut before: u32 = 0;
    let mut count: u16 = 0;
    for k in 0..end {
        let number = number_in(w, k);
        if number != 0 {
            let ok = is_message_sound(w, k, n, number, before);
            if !ok {
                return false;
            }
            before = number;
            count += 1;
            let vector_at = places::carried_at(k);
            let vector = words::vector_at(w, vector_at);
            let more = crate::rows::over_by(over, vector, owns);
            over = more;
        }
    }
    let within = crate::rows::is_zero(over);
    let last = words::wide2(w, places::LAST);
    within & ((count == w[places::UNDER_WAY]) & (before <= last))
}

// The end is one past the last place in use.
fn is_end_sound(w: &[u16], end: usize) -> bool
    requires { (length w.now ≡ state_size) × (end ≤ most_under_way) }
    ensures { result ≡ (eqb end 0 || not (eqb (number_in w.now (end - 1)) 0)) }
{
    if end == 0 {
        return true;
    }
    let number = number_in(w, end - 1);
    number != 0
}

pub fn are_messages_sound(w: &[u16], n: usize, owns: [Interval; PROCESSES]) -> bool
    requires { Judged w.now n owns }
    ensures { result ≡ all_of (messages_tests w.now) }
{
    let end = process::number_of(w[places::END]);
    if MESSAGES < end {
        return false;
    }
    let last = words::wide2(w, places::LAST);
    if LAST_MESSAGE < last {
        return false;
    }
    let ended = is_end_sound(w, end);
    if !ended {
        return false;
    }
    are_places_sound(w, end, n, owns)
}
