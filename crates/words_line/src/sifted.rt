// The messages that a recovery loses. They leave their places unused, and no other message moves.
ghost use Rattle.std.specs.Prelude.{◌≡◌, ◌≤◌, ◌<◌};
ghost use Rattle.laws.specs.Basics.{true, length, pick};
ghost use Rattle.laws.specs.Lists.{select, table};
ghost use Rattle.model.specs.Words.{most_processes, most_under_way};
ghost use Rattle.words.specs.Layout.{word, end_of, sender_at_of, message_in, is_message, state_size};
ghost use Rattle.words_line.specs.Sifted.{lost_to, remains, sifted_place, sifted_below, SendersPresent, Sifted};

use model::{CheckpointIndex, PROCESSES};
use words::places;

// "a recovery loses a message exactly if its sender's entry in the carried vector is above the sender's index in the line"
pub fn is_lost(w: &[u16], k: usize, indexes: [CheckpointIndex; PROCESSES]) -> bool
    requires { (length w.now ≡ state_size) × (k < most_under_way) × (word w.now (sender_at_of k) < most_processes) }
    ensures { result ≡ lost_to indexes (message_in w.now k) }
{
    let sender = w[places::SENDERS + k] as usize;
    let index = indexes[sender];
    let carried = words::interval_of(w[places::CARRIED + places::ROW * k + sender]);
    index.0 < carried.0
}

// A place whose message is lost is not in use any more. The result says how many messages are left in it.
fn sift_place(w: &mut [u16], k: usize, indexes: [CheckpointIndex; PROCESSES]) -> u16
    requires { (length w.old ≡ state_size) × (k < most_under_way) × (is_message (message_in w.old k) ≡ true → word w.old (sender_at_of k) < most_processes) }
    ensures { (w.new ≡ sifted_place indexes w.old k) × (result ≡ pick (remains indexes (message_in w.old k)) 1 0) }
{
    let used = words::messages::is_used(w, k);
    if !used {
        return 0;
    }
    let lost = is_lost(w, k, indexes);
    if lost {
        words::messages::clear(w, k);
        return 0;
    }
    1
}

// The same at each place before the end. The result says how many messages are left.
fn sift_places(w: &mut [u16], end: usize, indexes: [CheckpointIndex; PROCESSES]) -> u16
    requires { (length w.old ≡ state_size) × (end ≤ most_under_way) × SendersPresent end w.old }
    ensures { (w.new ≡ sifted_below indexes w.old end) × (result ≡ length (select (remains indexes) (table end (message_in w.old)))) }
{
    let mut left = 0;
    for k in 0..end {
        let one = sift_place(w, k, indexes);
        left += one;
    }
    left
}

// The messages that are lost where the line has these indexes are no longer under way. The words need not stand for a sound state: a recovery calls this once the
// processes have gone back.
pub fn sift(w: &mut [u16], indexes: [CheckpointIndex; PROCESSES])
    requires { (length w.old ≡ state_size) × (end_of w.old ≤ most_under_way) × SendersPresent (end_of w.old) w.old }
    ensures { Sifted indexes w.old w.new }
{
    let end = w[places::END] as usize;
    let left = sift_places(w, end, indexes);
    let past = words::messages::end_before(w, end);
    w[places::UNDER_WAY] = left;
    w[places::END] = past as u16;
}
