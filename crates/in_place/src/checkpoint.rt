// Checkpoint at i: the vector is stored under index own entry, the own pin names it, 1 is added to the own entry, the sent mark is cleared.
ghost use Rattle.std.specs.Prelude.{◌≡◌, ◌<◌, Err};
ghost use Rattle.laws.specs.Basics.{true};
ghost use Rattle.model.specs.{Sound.sound, declared.Refusal.Refusal};
ghost use Rattle.whole_runs.specs.{Outcomes.checkpoint_outcome, WholeRuns.StatePromise};
ghost use Rattle.words.specs.Layout.{count_of, run_of};
ghost use Rattle.in_place.specs.{Left.Leaves, Storing.storing_admission};
ghost use Rattle.whole_runs.specs.Calls as made;

use admissions::Admission;
use model::{CheckpointAnswer, Refusal, Stored};
use words::places;

// Whether a checkpoint of process i, taken or forced, is refused, and why.
pub(crate) fn storing_admission(w: &[u16], i: usize) -> Admission
    requires { (sound (run_of w.now) ≡ true) × (i < count_of w.now) }
    ensures { result ≡ storing_admission (run_of w.now) i }
{
    let own = words_process::steps::own_of(w, i);
    let full = admissions::is_last_interval(own);
    if full {
        return Err(Refusal::IntervalsUsed);
    }
    let written = words::wide4(w, places::WRITTEN);
    let past = admissions::is_past_bound(written, w[places::BLOCKS + i]);
    if past {
        return Err(Refusal::BlocksUsed);
    }
    Ok(())
}

// The words stand for a sound state.
pub fn checkpoint_on(w: &mut [u16], i: usize, deleted: &mut [u16]) -> CheckpointAnswer
    requires { sound (run_of w.old) ≡ true }
    ensures w_after { run_of w.new ≡ (checkpoint_outcome (run_of w.old) i deleted.old).run }
    ensures value { result ≡ (checkpoint_outcome (run_of w.old) i deleted.old).answer }
    ensures deleted_after { deleted.new ≡ (checkpoint_outcome (run_of w.old) i deleted.old).deleted }
    ensures w_unchanged { (why : Refusal) → result ≡ Err why → w.new ≡ w.old }
    ensures leaves { Leaves w.old w.new }
{
    let n = w[places::COUNT] as usize;
    let short = admissions::are_deletions_short(deleted.len(), n);
    if short {
        return Err(Refusal::ListTooShort);
    }
    if n <= i {
        return Err(Refusal::NoSuchProcess);
    }
    let admission = storing_admission(w, i);
    match admission {
        Err(why) => Err(why),
        Ok(()) => {
            let own = words_process::steps::own_of(w, i);
            let gone = words_process::steps::checkpoint(w, i, deleted);
            Ok(Stored {
                index: words::rows::vector::live_index(own),
                deleted: gone,
            })
        }
    }
}

// Process i takes a checkpoint. What is deleted goes to the front of the lent list.
// Wherever calls from an accepted start led to the state of the words, what the words then keep and its blocks are right (demand 3).
pub fn checkpoint(w: &mut [u16], i: usize, deleted: &mut [u16]) -> CheckpointAnswer
    ensures w_after { run_of w.new ≡ (checkpoint_outcome (run_of w.old) i deleted.old).run }
    ensures value { result ≡ (checkpoint_outcome (run_of w.old) i deleted.old).answer }
    ensures deleted_after { deleted.new ≡ (checkpoint_outcome (run_of w.old) i deleted.old).deleted }
    ensures w_unchanged { (why : Refusal) → result ≡ Err why → w.new ≡ w.old }
    ensures leaves { Leaves w.old w.new }
    ensures state_promise { StatePromise (run_of w.old) (made.checkpoint i deleted.old) (run_of w.new) }
{
    let sound = words_sound::is_sound(w);
    if !sound {
        return Err(Refusal::UnsoundState);
    }
    checkpoint_on(w, i, deleted)
}
