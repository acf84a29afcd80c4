// The messages under way that a recovery would lose, asked before it.
ghost use Rattle.std.specs.Prelude.{◌≡◌, ◌&&◌, ◌+◌, ◌*◌, ◌^◌, ◌≤◌, ◌<◌};
ghost use Rattle.laws.specs.Basics.{true, false, leb, length, sets, pick};
ghost use Rattle.model.specs.{Sound.sound, Words.most_processes, Words.most_under_way};
ghost use Rattle.listing.specs.answers.Codes.{coded};
ghost use Rattle.words.specs.Layout.{word, count_of, sender_at_of, message_in, is_message, run_of, state_size};
ghost use Rattle.words_line.specs.Sifted.{lost_to, SendersPresent};
ghost use Rattle.library_readers.specs.{Readings.sent_numbers, Readings.lost_reading, Written.three_of, Written.lost_below};

use crate::{THREE, count_in, counted, end_in, refused, write_message};
use model::{CheckpointIndex, MESSAGES, PROCESSES, Refusal};

// The message in place k, if it is lost where the line has these indexes, after `many` others. The result says how many they are then.
fn write_if_lost(
    w: &[u16],
    k: usize,
    many: usize,
    indexes: [CheckpointIndex; PROCESSES],
    out: &mut [u32],
) -> usize
    requires { (length w.now ≡ state_size) × (k < most_under_way) × (many < most_under_way) × (3 * most_under_way ≤ length out.old) × (is_message (message_in w.now k) ≡ true → word w.now (sender_at_of k) < most_processes) }
    ensures out_after { out.new ≡ pick (is_message (message_in w.now k) && lost_to indexes (message_in w.now k)) (sets out.old (3 * many) (three_of (message_in w.now k))) out.old }
    ensures value { result ≡ pick (is_message (message_in w.now k) && lost_to indexes (message_in w.now k)) (many + 1) many }
{
    let used = words::messages::is_used(w, k);
    if !used {
        return many;
    }
    let lost = words_line::sifted::is_lost(w, k, indexes);
    if !lost {
        return many;
    }
    write_message(w, k, many, out)
}

// The lost ones in the places before the end, three numbers each.
fn write_lost(
    w: &[u16],
    end: usize,
    indexes: [CheckpointIndex; PROCESSES],
    out: &mut [u32],
) -> usize
    requires { (length w.now ≡ state_size) × (end ≤ most_under_way) × (3 * most_under_way ≤ length out.old) × SendersPresent end w.now }
    ensures out_after { out.new ≡ sets out.old 0 (sent_numbers (lost_below indexes w.now end)) }
    ensures value { result ≡ length (lost_below indexes w.now end) }
{
    let mut many = 0;
    for k in 0..end {
        let next = write_if_lost(w, k, many, indexes, out);
        many = next;
    }
    many
}

// A failed set that is within the run: they are written if the line rule accepts a state of each process.
fn lost_within(w: &[u16], n: usize, failed: u32, messages: &mut [u32]) -> u64
    requires { (sound (run_of w.now) ≡ true) × (n ≡ count_of w.now) × (leb (2 ^ n) failed ≡ false) × (3 * most_under_way ≤ length messages.old) }
    ensures value { result ≡ coded (lost_reading (run_of w.now) failed messages.old).report 0 }
    ensures messages_after { messages.new ≡ (lost_reading (run_of w.now) failed messages.old).list }
{
    let members = in_place::line::members_of(w, n, failed);
    if !members.all {
        return refused(Refusal::UnsoundState);
    }
    let indexes = members.indexes;
    let end = end_in(w);
    let many = write_lost(w, end, indexes, messages);
    counted(many)
}

// Bit p of the failed set stands for process p.
pub fn lost_on(w: &[u16], failed: u32, messages: &mut [u32]) -> u64
    requires { sound (run_of w.now) ≡ true }
    ensures value { result ≡ coded (lost_reading (run_of w.now) failed messages.old).report 0 }
    ensures messages_after { messages.new ≡ (lost_reading (run_of w.now) failed messages.old).list }
{
    if messages.len() < THREE * MESSAGES {
        return refused(Refusal::ListTooShort);
    }
    let n = count_in(w);
    let outside = admissions::is_outside(failed, n);
    if outside {
        return refused(Refusal::NoSuchFailedProcess);
    }
    lost_within(w, n, failed, messages)
}
