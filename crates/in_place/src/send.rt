// Send from i to j: the message carries i's vector, and i's sent mark is set.
ghost use Rattle.std.specs.Prelude.{◌≡◌, ◌+◌, ◌<◌, Err};
ghost use Rattle.laws.specs.Basics.{true};
ghost use Rattle.model.specs.{Sound.sound, Words.most_under_way, Words.most_messages};
ghost use Rattle.model.specs.declared.Refusal.{Refusal};
ghost use Rattle.whole_runs.specs.{Outcomes.send_outcome, WholeRuns.StatePromise};
ghost use Rattle.words.specs.Layout.{word, count_of, wide2, run_of};
ghost use Rattle.in_place.specs.{Left.Leaves, Sending.sent_words};
ghost use Rattle.whole_runs.specs.Calls as made;

use model::{Message, Refusal, SendAnswer};
use words::places;

// The word of a sent mark that is set.
const SET: u16 = 1;

// The message is put after the others. Its number is the result.
fn put_sent(w: &mut [u16], i: usize, j: usize) -> u32
    requires { (sound (run_of w.old) ≡ true) × (i < count_of w.old) × (j < count_of w.old) × (word w.old 1 < most_under_way) × (wide2 w.old 2 < most_messages) }
    ensures { (w.new ≡ sent_words w.old i j) × (result ≡ wide2 w.old 2 + 1) }
{
    words::messages::make_room(w);
    let number = words::wide2(w, places::LAST) + 1;
    let vector = words::vector_at(w, places::PARTS + places::PART * i);
    let message = Message {
        number,
        sender: i,
        receiver: j,
        vector,
    };
    words::messages::put_last(w, message);
    words::put2(w, places::LAST, number);
    w[places::MARKS + i] = SET;
    number
}

// The words stand for a sound state.
pub fn send_on(w: &mut [u16], i: usize, j: usize) -> SendAnswer
    requires { sound (run_of w.old) ≡ true }
    ensures w_after { run_of w.new ≡ (send_outcome (run_of w.old) i j).run }
    ensures value { result ≡ (send_outcome (run_of w.old) i j).answer }
    ensures w_unchanged { (why : Refusal) → result ≡ Err why → w.new ≡ w.old }
    ensures leaves { Leaves w.old w.new }
{
    let n = w[places::COUNT] as usize;
    let many = w[places::UNDER_WAY] as usize;
    let last = words::wide2(w, places::LAST);
    let admission = admissions::send_admission(i, j, n, many, last);
    match admission {
        Err(why) => Err(why),
        Ok(()) => {
            let number = put_sent(w, i, j);
            Ok(number)
        }
    }
}

// Process i sends a message to process j.
// Wherever calls from an accepted start led to the state of the words, what the words then keep and its blocks are right (demand 3).
pub fn send(w: &mut [u16], i: usize, j: usize) -> SendAnswer
    ensures w_after { run_of w.new ≡ (send_outcome (run_of w.old) i j).run }
    ensures value { result ≡ (send_outcome (run_of w.old) i j).answer }
    ensures w_unchanged { (why : Refusal) → result ≡ Err why → w.new ≡ w.old }
    ensures leaves { Leaves w.old w.new }
    ensures state_promise { StatePromise (run_of w.old) (made.send i j) (run_of w.new) }
{
    let sound = words_sound::is_sound(w);
    if !sound {
        return Err(Refusal::UnsoundState);
    }
    send_on(w, i, j)
}
