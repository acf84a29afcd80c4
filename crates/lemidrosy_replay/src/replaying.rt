// A block of records applied to the words, for a run-time that hands its events over in batches: the words are tested once, and once more after each recovery that deletes a
// checkpoint.
ghost use Rattle.std.specs.Prelude.{◌≡◌, ◌∷◌, ◌≤◌, ◌<◌};
ghost use Rattle.laws.specs.Basics.{[], length, sets, pick};
ghost use Rattle.whole_runs.specs.WholeRuns.{Reachable};
ghost use Rattle.listing.specs.answers.Codes.{coded};
ghost use Rattle.words.specs.Layout.{run_of};
ghost use Rattle.in_place.specs.Left.{Leaves};
ghost use Rattle.lemidrosy_replay.specs.Replaying.{replaying};

use crate::LIST_TOO_SHORT;
use library_replay::block::Progress;

// How many numbers say how far a replay of a block came.
const PROGRESS: usize = 3;

fn one_if(going: bool) -> u64
    ensures { result ≡ pick going 1 0 }
{
    if going {
        return 1;
    }
    0
}

// How many records were taken, how many bytes of lines were written, and 1 if the replay goes on after them.
fn write_progress(progress: &mut [u64], step: Progress)
    requires { 3 ≤ length progress.old }
    ensures { progress.new ≡ sets progress.old 0 (step.taken ∷ step.written ∷ pick step.going 1 0 ∷ []) }
{
    progress[0] = step.taken as u64;
    progress[1] = step.written as u64;
    progress[2] = one_if(step.going);
}

// The whole records of a block, four bytes each, applied to the words one after the other, their lines at the front of `text`; a block has no first byte. A record is
// taken as long as the replay goes on, it is not past record 1,000,000,000, and the longest line fits into the room that is left of `text`; `done` says how many
// records came before the block, and `all` whether the replay goes on after a refusal. Words that stand for no sound state refuse each record, with 14 or else with 2.
// Wherever calls from an accepted start led to the state of the words, they lead to the one that is left, and demand 3 holds of it.
#[unsafe(no_mangle)]
pub extern "C" fn lemidrosy_replay(
    words: &mut [u16],
    all: bool,
    done: u64,
    records: &[u8],
    text: &mut [u8],
    progress: &mut [u64],
) -> u64
    ensures fact { let o = replaying all done (run_of words.old) records.now text.old progress.old in
        (result ≡ coded o.report 0) × (run_of words.new ≡ o.run) × (text.new ≡ o.text) × (progress.new ≡ o.progress) }
    ensures words_unchanged { length progress.old < 3 → words.new ≡ words.old }
    ensures leaves { Leaves words.old words.new }
    ensures reachable { Reachable (run_of words.old) → Reachable (run_of words.new) }
{
    if progress.len() < PROGRESS {
        return LIST_TOO_SHORT;
    }
    let step = library_replay::block::replay(words, all, done, records, text);
    write_progress(progress, step);
    0
}
