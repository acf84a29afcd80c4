// The messages under way, in 64 places of the words. A place is in use before the end of those in use, and where its number is not 0; what another place holds changes
// no answer. A message that is received or lost leaves its place unused and no other moves, until a send finds the last place taken: then the messages close up.
ghost use Rattle.std.specs.Prelude.{◌≡◌, ◌+◌, ◌-◌, ◌≤◌, ◌<◌};
ghost use Rattle.laws.specs.Basics.{eqb, length, pick};
ghost use Rattle.model.specs.Words.{most_under_way, most_processes};
ghost use Rattle.words.specs.{Layout.word, Layout.end_of, Layout.message_in, Layout.is_message, Layout.state_size, Puts.puts};
ghost use Rattle.words.specs.messages.Places.{place_below, lows_below, place_of, found_at, end_below, message_puts, cleared, taken_out, moved_to, closing, cleared_from, closed_up, with_room, put_last_of};

use crate::places;
use model::{MESSAGES, Message};

// The end of the places in use where all of them are.
const LAST_PLACE: u16 = MESSAGES as u16;

// How many places are looked at together.
const TOGETHER: usize = 16;

// A word as a number of 32 bits.
fn wide(x: u16) -> u32
    ensures { (result ≡ x) × (result < 65536) }
{
    x as u32
}

// The number in a place, 0 where the place is not used.
pub fn number_at(w: &[u16], k: usize) -> u32
    requires { (length w.now ≡ state_size) × (k < most_under_way) }
    ensures { result ≡ (message_in w.now k).number }
{
    let low = wide(w[places::LOWS + k]);
    let high = wide(w[places::HIGHS + k]);
    low + 65536 * high
}

pub fn is_used(w: &[u16], k: usize) -> bool
    requires { (length w.now ≡ state_size) × (k < most_under_way) }
    ensures { result ≡ is_message (message_in w.now k) }
{
    number_at(w, k) != 0
}

// One above the place k where its number has this low word; 0 where it has another.
fn hit(low: u16, wanted: u16, k: u16) -> u16
    requires { k < most_under_way }
    ensures { result ≡ pick (eqb low wanted) (k + 1) 0 }
{
    if low == wanted { k + 1 } else { 0 }
}

// Where among the first places the numbers have this low word: one past the place if it is one alone, 0 if there is none, and never less than one past the last of them.
// Words are compared, and not numbers, since a register holds more of them.
fn lows_before(w: &[u16], low: u16, to: usize) -> u16
    requires { (length w.now ≡ state_size) × (to ≤ most_under_way) }
    ensures { result ≡ lows_below w.now low to }
{
    let mut past: u16 = 0;
    for k in 0..to {
        let here = hit(w[places::LOWS + k], low, k as u16);
        past = past | here;
    }
    past
}

// The place of message m among the first ones, which are tested one after the other, the last one first.
fn search_before(w: &[u16], m: u32, end: usize) -> Option<usize>
    requires { (length w.now ≡ state_size) × (end ≤ most_under_way) }
    ensures { result ≡ found_at (place_below w.now m end) }
{
    let mut past = end;
    while 0 < past {
        let number = number_at(w, past - 1);
        if number == m {
            return Some(past - 1);
        }
        past -= 1;
    }
    None
}

// The place of message m. A place that is not in use has the number 0, which no message has. The low words are looked at first, so many together that some may stand past
// the end, and the one place that they lead to is tested. Where two places have the same low word, or one past the end has it, each place in use is tested.
pub fn place_of(w: &[u16], m: u32) -> Option<usize>
    requires { (length w.now ≡ state_size) × (end_of w.now ≤ most_under_way) }
    ensures { result ≡ found_at (place_of w.now m) }
{
    if m == 0 {
        return None;
    }
    let end = w[places::END] as usize;
    let whole = TOGETHER * ((end + TOGETHER - 1) / TOGETHER);
    let past = lows_before(w, (m % 65536) as u16, whole) as usize;
    if past == 0 {
        return None;
    }
    if end < past {
        return search_before(w, m, end);
    }
    let number = number_at(w, past - 1);
    if number == m {
        return Some(past - 1);
    }
    search_before(w, m, end)
}

fn put(w: &mut [u16], k: usize, x: Message)
    requires { (length w.old ≡ state_size) × (k < most_under_way) × (x.sender < most_processes) × (x.receiver < most_processes) }
    ensures { w.new ≡ puts w.old (message_puts k x) }
{
    let number = x.number;
    let vector = x.vector;
    w[places::LOWS + k] = (number % 65536) as u16;
    w[places::HIGHS + k] = (number / 65536) as u16;
    w[places::SENDERS + k] = x.sender as u16;
    w[places::RECEIVERS + k] = x.receiver as u16;
    crate::put_vector(w, places::CARRIED + places::ROW * k, vector);
}

// The place is not in use any more, and holds zero.
pub fn clear(w: &mut [u16], k: usize)
    requires { (length w.old ≡ state_size) × (k < most_under_way) }
    ensures { w.new ≡ cleared w.old k }
{
    w[places::LOWS + k] = 0;
    w[places::HIGHS + k] = 0;
    w[places::SENDERS + k] = 0;
    w[places::RECEIVERS + k] = 0;
    crate::clear_row(w, places::CARRIED + places::ROW * k);
}

// One past the last place in use before `from`.
pub fn end_before(w: &[u16], from: usize) -> usize
    requires { (length w.now ≡ state_size) × (from ≤ most_under_way) }
    ensures { result ≡ end_below w.now from }
{
    let mut end = from;
    while 0 < end {
        let used = is_used(w, end - 1);
        if used {
            return end;
        }
        end -= 1;
    }
    0
}

// The message in this place is no longer under way.
pub fn take_out(w: &mut [u16], k: usize)
    requires { (length w.old ≡ state_size) × (end_of w.old ≤ most_under_way) × (k < most_under_way) × (1 ≤ word w.old 1) }
    ensures { w.new ≡ taken_out w.old k }
{
    let many = w[places::UNDER_WAY];
    let end = w[places::END] as usize;
    clear(w, k);
    let past = end_before(w, end);
    w[places::UNDER_WAY] = many - 1;
    w[places::END] = past as u16;
}

// What stands in one place goes to another.
fn move_to(w: &mut [u16], from: usize, to: usize)
    requires { (length w.old ≡ state_size) × (from < most_under_way) × (to < most_under_way) }
    ensures { w.new ≡ moved_to w.old from to }
{
    let number = number_at(w, from);
    let sender = w[places::SENDERS + from];
    let receiver = w[places::RECEIVERS + from];
    let row = crate::vector_at(w, places::CARRIED + places::ROW * from);
    w[places::LOWS + to] = (number % 65536) as u16;
    w[places::HIGHS + to] = (number / 65536) as u16;
    w[places::SENDERS + to] = sender;
    w[places::RECEIVERS + to] = receiver;
    crate::put_vector(w, places::CARRIED + places::ROW * to, row);
}

// How many messages stand in a place.
fn one_if_used(w: &[u16], k: usize) -> usize
    requires { (length w.now ≡ state_size) × (k < most_under_way) }
    ensures { result ≡ pick (is_message (message_in w.now k)) 1 0 }
{
    let used = is_used(w, k);
    if used { 1 } else { 0 }
}

// The first place that is not used, 64 where all are: what stands before it stays where it is when the messages close up.
fn first_unused(w: &[u16]) -> usize
    requires { length w.now ≡ state_size }
    ensures { (result ≤ most_under_way) × (closing w.now result ≡ record { words = w.now; many = result }) }
{
    let mut k = 0;
    while k < MESSAGES {
        let used = is_used(w, k);
        if !used {
            return k;
        }
        k += 1;
    }
    k
}

// The messages move to the first places, one after the other, with no branch: which places are used cannot be foreseen. The result says how many they are.
fn gather(w: &mut [u16]) -> usize
    requires { length w.old ≡ state_size }
    ensures { (w.new ≡ (closing w.old most_under_way).words) × (result ≡ (closing w.old most_under_way).many) }
{
    let first = first_unused(w);
    let mut to = first;
    for k in first..MESSAGES {
        let one = one_if_used(w, k);
        move_to(w, k, to);
        to += one;
    }
    to
}

fn clear_from(w: &mut [u16], from: usize)
    requires { (length w.old ≡ state_size) × (from ≤ most_under_way) }
    ensures { w.new ≡ cleared_from w.old from (most_under_way - from) }
{
    for k in from..MESSAGES {
        clear(w, k);
    }
}

// No unused place is left between the messages.
fn close_up(w: &mut [u16])
    requires { length w.old ≡ state_size }
    ensures { w.new ≡ closed_up w.old }
{
    let many = gather(w);
    clear_from(w, many);
    w[places::END] = many as u16;
}

// A place is left after those in use.
pub fn make_room(w: &mut [u16])
    requires { length w.old ≡ state_size }
    ensures { w.new ≡ with_room w.old }
{
    if w[places::END] == LAST_PLACE {
        close_up(w);
    }
}

// A message goes after the others.
pub fn put_last(w: &mut [u16], x: Message)
    requires { (length w.old ≡ state_size) × (end_of w.old < most_under_way) × (word w.old 1 < most_under_way) × (x.sender < most_processes) × (x.receiver < most_processes) }
    ensures { w.new ≡ put_last_of w.old x }
{
    let end = w[places::END];
    let many = w[places::UNDER_WAY];
    put(w, end as usize, x);
    w[places::UNDER_WAY] = many + 1;
    w[places::END] = end + 1;
}
