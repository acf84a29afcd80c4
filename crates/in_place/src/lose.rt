// Lose: the message is no longer under way; nothing else changes.
ghost use Rattle.std.specs.Prelude.{◌≡◌, Err};
ghost use Rattle.laws.specs.Basics.{true};
ghost use Rattle.model.specs.{Sound.sound, declared.Refusal.Refusal};
ghost use Rattle.whole_runs.specs.{Outcomes.lose_outcome, WholeRuns.StatePromise};
ghost use Rattle.words.specs.Layout.{run_of};
ghost use Rattle.in_place.specs.Left.{Leaves};
ghost use Rattle.whole_runs.specs.Calls as made;

use model::{LoseAnswer, Refusal};

// The words stand for a sound state.
pub fn lose_on(w: &mut [u16], m: u32) -> LoseAnswer
    requires { sound (run_of w.old) ≡ true }
    ensures w_after { run_of w.new ≡ (lose_outcome (run_of w.old) m).run }
    ensures value { result ≡ (lose_outcome (run_of w.old) m).answer }
    ensures w_unchanged { (why : Refusal) → result ≡ Err why → w.new ≡ w.old }
    ensures leaves { Leaves w.old w.new }
{
    let found = words::messages::place_of(w, m);
    match found {
        None => Err(Refusal::NotUnderWay),
        Some(k) => {
            words::messages::take_out(w, k);
            Ok(())
        }
    }
}

// Message m is lost.
// Wherever calls from an accepted start led to the state of the words, what the words then keep and its blocks are right (demand 3).
pub fn lose(w: &mut [u16], m: u32) -> LoseAnswer
    ensures w_after { run_of w.new ≡ (lose_outcome (run_of w.old) m).run }
    ensures value { result ≡ (lose_outcome (run_of w.old) m).answer }
    ensures w_unchanged { (why : Refusal) → result ≡ Err why → w.new ≡ w.old }
    ensures leaves { Leaves w.old w.new }
    ensures state_promise { StatePromise (run_of w.old) (made.lose m) (run_of w.new) }
{
    let sound = words_sound::is_sound(w);
    if !sound {
        return Err(Refusal::UnsoundState);
    }
    lose_on(w, m)
}
