// What a run-time reads of the words, each by one reader: specs/Readings says what is answered and what the lent list then holds. The words stand for a sound state;
// whoever exports these functions tests that first.

#![tactic(auto)]

ghost use Rattle.std.specs.Prelude.{◌≡◌, ◌∷◌, ◌+◌, ◌*◌, ◌≤◌, ◌<◌};
ghost use Rattle.laws.specs.Basics.{true, [], Some, ℕ, length, sets, pick};
ghost use Rattle.laws.specs.Lists.{table};
ghost use Rattle.model.specs.{Sound.sound, Words.most_processes, Words.most_under_way};
ghost use Rattle.whole_runs.specs.Outcomes.{refusing, accepting};
ghost use Rattle.listing.specs.answers.Codes.{coded};
ghost use Rattle.words.specs.Layout.{word, count_of, end_of, index_at_of, checkpoint_in, message_in, is_message, run_of, state_size};
ghost use Rattle.library_readers.specs.Readings.{numbers_reading, vector_reading, pins_reading, stored_numbers, kept_reading, sent_numbers, messages_reading, carried_reading};
ghost use Rattle.library_readers.specs.Written.{numbers_in, words_from, row_reading, three_stored, three_of, messages_below};

use listing::Summary;
use listing::answers::code_of;
use model::{MESSAGES, Refusal};
use words::places;

// lost.rt: the messages under way that a recovery would lose
pub mod lost;

// saved.rt: a state saved to bytes and loaded from them
pub mod saved;

// How many numbers a run has, how many are written of each checkpoint and of each message.
const NUMBERS: usize = 5;

pub(crate) const THREE: usize = 3;

pub fn refused(why: Refusal) -> u64
    ensures { result ≡ coded (refusing why) 0 }
{
    let summary = Summary::from(why);
    code_of(summary, 0)
}

// That many things were read; the field of the answer has 24 bits.
pub fn counted(many: usize) -> u64
    requires { many < 16777216 }
    ensures { result ≡ coded (accepting (Some many) 0) 0 }
{
    let value = Some(many as u64);
    let summary = Summary {
        refused: None,
        value,
        deletions: 0,
    };
    code_of(summary, 0)
}

fn number_of(x: u16) -> usize
    ensures { result ≡ x }
{
    x as usize
}

fn wide(x: u16) -> u32
    ensures { result ≡ x }
{
    x as u32
}

pub(crate) fn count_in(w: &[u16]) -> usize
    requires { sound (run_of w.now) ≡ true }
    ensures { result ≡ count_of w.now }
{
    number_of(w[places::COUNT])
}

// The end of the places of messages in use.
pub(crate) fn end_in(w: &[u16]) -> usize
    requires { sound (run_of w.now) ≡ true }
    ensures { result ≡ end_of w.now }
{
    number_of(w[places::END])
}

// The n words from a place on go to the front of a lent list.
pub fn copy_words(w: &[u16], at: usize, n: usize, out: &mut [u16])
    requires { (at + n ≤ length w.now) × (n ≤ length out.old) }
    ensures { out.new ≡ sets out.old 0 (words_from w.now at n) }
{
    for f in 0..n {
        let x = w[at + f];
        out[f] = x;
    }
}

fn put_three(out: &mut [u32], at: usize, x: u32, y: u32, z: u32)
    requires { at + 3 ≤ length out.old }
    ensures { out.new ≡ sets out.old at (x ∷ y ∷ z ∷ []) }
{
    out[at] = x;
    out[at + 1] = y;
    out[at + 2] = z;
}

// The checkpoint in place k of process p, after k others.
fn write_checkpoint(w: &[u16], p: usize, k: usize, out: &mut [u32])
    requires { (length w.now ≡ state_size) × (p < most_processes) × (k < most_processes) × (1 ≤ word w.now (index_at_of p k)) × (3 * k + 3 ≤ length out.old) }
    ensures { out.new ≡ sets out.old (3 * k) (three_stored (checkpoint_in w.now p k)) }
{
    let index_at = places::index_at(p, k);
    let index = words::index_of(w[index_at]);
    let cause_at = places::cause_at(p, k);
    let cause = wide(w[cause_at]);
    let blocks_at = places::blocks_at(p);
    let blocks = wide(w[blocks_at]);
    let number = wide(index.0);
    put_three(out, THREE * k, number, cause, blocks);
}

// The first `kept_count` checkpoints in the places of process p, three numbers each.
fn write_kept(w: &[u16], p: usize, kept_count: usize, out: &mut [u32])
    requires { (length w.now ≡ state_size) × (p < most_processes) × (kept_count ≤ most_processes) × (3 * kept_count ≤ length out.old) × ((k : ℕ) → k < kept_count → 1 ≤ word w.now (index_at_of p k)) }
    ensures { out.new ≡ sets out.old 0 (stored_numbers (table kept_count (checkpoint_in w.now p))) }
{
    for k in 0..kept_count {
        write_checkpoint(w, p, k, out);
    }
}

// The message in place k, if there is one, after `many` others. The result says how many they are then.
pub(crate) fn write_message(w: &[u16], k: usize, many: usize, out: &mut [u32]) -> usize
    requires { (length w.now ≡ state_size) × (k < most_under_way) × (many < most_under_way) × (3 * most_under_way ≤ length out.old) }
    ensures out_after { out.new ≡ pick (is_message (message_in w.now k)) (sets out.old (3 * many) (three_of (message_in w.now k))) out.old }
    ensures value { result ≡ pick (is_message (message_in w.now k)) (many + 1) many }
{
    let number = words::messages::number_at(w, k);
    if number == 0 {
        return many;
    }
    let sender_at = places::sender_at(k);
    let sender = wide(w[sender_at]);
    let receiver_at = places::receiver_at(k);
    let receiver = wide(w[receiver_at]);
    put_three(out, THREE * many, number, sender, receiver);
    many + 1
}

// The messages in the places before the end, three numbers each.
fn write_messages(w: &[u16], end: usize, out: &mut [u32]) -> usize
    requires { (length w.now ≡ state_size) × (end ≤ most_under_way) × (3 * most_under_way ≤ length out.old) }
    ensures out_after { out.new ≡ sets out.old 0 (sent_numbers (messages_below w.now end)) }
    ensures value { result ≡ length (messages_below w.now end) }
{
    let mut many = 0;
    for k in 0..end {
        let next = write_message(w, k, many, out);
        many = next;
    }
    many
}

fn write_numbers(w: &[u16], out: &mut [u64])
    requires { (length w.now ≡ state_size) × (5 ≤ length out.old) }
    ensures { out.new ≡ sets out.old 0 (numbers_in w.now) }
{
    let n = wide(w[places::COUNT]);
    let many = wide(w[places::UNDER_WAY]);
    let last = words::wide2(w, places::LAST);
    let written = words::wide4(w, places::WRITTEN);
    let deleted = words::wide4(w, places::DELETED);
    out[0] = n as u64;
    out[1] = last as u64;
    out[2] = many as u64;
    out[3] = written;
    out[4] = deleted;
}

// The numbers of the run.
pub fn numbers_on(w: &[u16], numbers: &mut [u64]) -> u64
    requires { sound (run_of w.now) ≡ true }
    ensures value { result ≡ coded (numbers_reading (run_of w.now) numbers.old).report 0 }
    ensures numbers_after { numbers.new ≡ (numbers_reading (run_of w.now) numbers.old).list }
{
    if numbers.len() < NUMBERS {
        return refused(Refusal::ListTooShort);
    }
    write_numbers(w, numbers);
    0
}

// The n words from a place of a process's part on: its vector, or its pins.
fn row_on(w: &[u16], process: usize, from: usize, row: &mut [u16]) -> u64
    requires { (sound (run_of w.now) ≡ true) × (from ≤ 304) }
    ensures value { result ≡ coded (row_reading w.now process from row.old).report 0 }
    ensures row_after { row.new ≡ (row_reading w.now process from row.old).list }
{
    let n = count_in(w);
    if row.len() < n {
        return refused(Refusal::ListTooShort);
    }
    if n <= process {
        return refused(Refusal::NoSuchProcess);
    }
    let at = places::part_at(process);
    copy_words(w, at + from, n, row);
    0
}

// The vector of a process.
pub fn vector_on(w: &[u16], process: usize, vector: &mut [u16]) -> u64
    requires { sound (run_of w.now) ≡ true }
    ensures value { result ≡ coded (vector_reading (run_of w.now) process vector.old).report 0 }
    ensures vector_after { vector.new ≡ (vector_reading (run_of w.now) process vector.old).list }
{
    row_on(w, process, 0, vector)
}

// The pins of a process, which stand after its vector.
pub fn pins_on(w: &[u16], process: usize, pins: &mut [u16]) -> u64
    requires { sound (run_of w.now) ≡ true }
    ensures value { result ≡ coded (pins_reading (run_of w.now) process pins.old).report 0 }
    ensures pins_after { pins.new ≡ (pins_reading (run_of w.now) process pins.old).list }
{
    row_on(w, process, places::ROW, pins)
}

// The checkpoints that a process keeps.
pub fn kept_on(w: &[u16], process: usize, kept: &mut [u32]) -> u64
    requires { sound (run_of w.now) ≡ true }
    ensures value { result ≡ coded (kept_reading (run_of w.now) process kept.old).report 0 }
    ensures kept_after { kept.new ≡ (kept_reading (run_of w.now) process kept.old).list }
{
    let n = count_in(w);
    if kept.len() < THREE * n {
        return refused(Refusal::ListTooShort);
    }
    if n <= process {
        return refused(Refusal::NoSuchProcess);
    }
    let kept_count_at = places::kept_count_at(process);
    let kept_count = number_of(w[kept_count_at]);
    write_kept(w, process, kept_count, kept);
    counted(kept_count)
}

// The messages under way.
pub fn messages_on(w: &[u16], messages: &mut [u32]) -> u64
    requires { sound (run_of w.now) ≡ true }
    ensures value { result ≡ coded (messages_reading (run_of w.now) messages.old).report 0 }
    ensures messages_after { messages.new ≡ (messages_reading (run_of w.now) messages.old).list }
{
    if messages.len() < THREE * MESSAGES {
        return refused(Refusal::ListTooShort);
    }
    let end = end_in(w);
    let many = write_messages(w, end, messages);
    counted(many)
}

// The vector that a message carries.
pub fn carried_on(w: &[u16], message: u32, vector: &mut [u16]) -> u64
    requires { sound (run_of w.now) ≡ true }
    ensures value { result ≡ coded (carried_reading (run_of w.now) message vector.old).report 0 }
    ensures vector_after { vector.new ≡ (carried_reading (run_of w.now) message vector.old).list }
{
    let n = count_in(w);
    if vector.len() < n {
        return refused(Refusal::ListTooShort);
    }
    let found = words::messages::place_of(w, message);
    match found {
        None => refused(Refusal::NotUnderWay),
        Some(k) => {
            let at = places::carried_at(k);
            copy_words(w, at, n, vector);
            0
        }
    }
}
