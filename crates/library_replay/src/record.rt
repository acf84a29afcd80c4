// One record on the words: the call that it stands for, what its line says, and whether the words then stand for a sound state.
ghost use Rattle.std.specs.Prelude.{◌≡◌};
ghost use Rattle.laws.specs.Basics.{true, List, Some, ℕ, length};
ghost use Rattle.model.specs.{Sound.sound, Words.most_deletions, Words.most_processes};
ghost use Rattle.whole_runs.specs.{Outcomes.refusing, WholeRuns.Reachable};
ghost use Rattle.listing.specs.Summarised.{report_in, Performs};
ghost use Rattle.words.specs.Layout.{run_of};
ghost use Rattle.in_place.specs.Left.{Leaves};
ghost use Rattle.model.specs.declared.Event.TheVariants as event;

use listing::Summary;
use model::{Event, Refusal};

// What a record comes to: what its line says, and whether the words then stand for a sound state.
#[derive(Clone, Copy)]
pub struct Applied {
    pub summary: Summary,
    pub sound: bool,
}

fn refuse(why: Refusal, still: bool) -> Applied
    ensures { (report_in result.summary ≡ refusing why) × (result.sound ≡ still) }
{
    let summary = Summary::from(why);
    Applied {
        summary,
        sound: still,
    }
}

fn checkpoint(w: &mut [u16], i: usize, deleted: &mut [u16]) -> Applied
    requires { (sound (run_of w.old) ≡ true) × (length deleted.old ≡ most_deletions) }
    ensures performs { Performs (run_of w.old) (Some (event.Checkpoint i)) (run_of w.new) result.summary deleted.new }
    ensures sound_value { result.sound ≡ sound (run_of w.new) }
    ensures leaves { Leaves w.old w.new }
{
    let answer = in_place::checkpoint::checkpoint_on(w, i, deleted);
    let summary = Summary::from(answer);
    Applied {
        summary,
        sound: true,
    }
}

fn send(w: &mut [u16], i: usize, j: usize) -> Applied
    requires { sound (run_of w.old) ≡ true }
    ensures by_index { (deleted : List ℕ) → Performs (run_of w.old) (Some (event.Send i j)) (run_of w.new) result.summary deleted }
    ensures sound_value { result.sound ≡ sound (run_of w.new) }
    ensures leaves { Leaves w.old w.new }
{
    let answer = in_place::send::send_on(w, i, j);
    let summary = Summary::from(answer);
    Applied {
        summary,
        sound: true,
    }
}

fn deliver(w: &mut [u16], m: u32, deleted: &mut [u16]) -> Applied
    requires { (sound (run_of w.old) ≡ true) × (length deleted.old ≡ most_deletions) }
    ensures performs { Performs (run_of w.old) (Some (event.Deliver m)) (run_of w.new) result.summary deleted.new }
    ensures sound_value { result.sound ≡ sound (run_of w.new) }
    ensures leaves { Leaves w.old w.new }
{
    let delivered = in_place::deliver::deliver_on(w, m, deleted);
    let answer = delivered.answer;
    let summary = Summary::from(answer);
    Applied {
        summary,
        sound: true,
    }
}

fn lose(w: &mut [u16], m: u32) -> Applied
    requires { sound (run_of w.old) ≡ true }
    ensures by_index { (deleted : List ℕ) → Performs (run_of w.old) (Some (event.Lose m)) (run_of w.new) result.summary deleted }
    ensures sound_value { result.sound ≡ sound (run_of w.new) }
    ensures leaves { Leaves w.old w.new }
{
    let answer = in_place::lose::lose_on(w, m);
    let summary = Summary::from(answer);
    Applied {
        summary,
        sound: true,
    }
}

// Whether the words stand for a sound state after a recovery that deleted so many checkpoints. They do where calls from a start led to them, and where none was deleted, as
// by one that was refused: then no own entry fell.
fn sound_after(w: &[u16], reached: bool, deletions: usize) -> bool
    requires { (reached ≡ true → sound (run_of w.now) ≡ true) × (deletions ≡ 0 → sound (run_of w.now) ≡ true) }
    ensures { result ≡ sound (run_of w.now) }
{
    if reached {
        return true;
    }
    if deletions == 0 {
        return true;
    }
    words_sound::is_sound(w)
}

fn recover(
    w: &mut [u16],
    reached: bool,
    failed: u32,
    deleted: &mut [u16],
    line: &mut [u16],
) -> Applied
    requires { (sound (run_of w.old) ≡ true) × (reached ≡ true → Reachable (run_of w.old)) × (length deleted.old ≡ most_deletions) × (length line.old ≡ most_processes) }
    ensures performs { Performs (run_of w.old) (Some (event.Recover failed)) (run_of w.new) result.summary deleted.new }
    ensures sound_value { result.sound ≡ sound (run_of w.new) }
    ensures leaves { Leaves w.old w.new }
{
    let answer = in_place_recover::recover_on(w, failed, deleted, line);
    let summary = Summary::from(answer);
    let still = sound_after(w, reached, summary.deletions);
    Applied {
        summary,
        sound: still,
    }
}

// The call of an event, on words that stand for a sound state.
fn event_on(
    w: &mut [u16],
    reached: bool,
    e: Event,
    deleted: &mut [u16],
    line: &mut [u16],
) -> Applied
    requires { (sound (run_of w.old) ≡ true) × (reached ≡ true → Reachable (run_of w.old)) × (length deleted.old ≡ most_deletions) × (length line.old ≡ most_processes) }
    ensures performs { Performs (run_of w.old) (Some e) (run_of w.new) result.summary deleted.new }
    ensures sound_value { result.sound ≡ sound (run_of w.new) }
    ensures leaves { Leaves w.old w.new }
{
    match e {
        Event::Checkpoint(i) => checkpoint(w, i, deleted),
        Event::Send(i, j) => send(w, i, j as usize),
        Event::Deliver(m) => deliver(w, m, deleted),
        Event::Lose(m) => lose(w, m),
        Event::Recover(failed) => recover(w, reached, failed, deleted, line),
    }
}

// A record on words of which `still` says whether they stand for a sound state, and `reached` whether calls from a start led to them:
// "14 .. given before any other number for that record", then 2.
pub fn apply(
    w: &mut [u16],
    still: bool,
    reached: bool,
    d: Option<Event>,
    deleted: &mut [u16],
    line: &mut [u16],
) -> Applied
    requires { (still ≡ sound (run_of w.old)) × (reached ≡ true → Reachable (run_of w.old)) × (length deleted.old ≡ most_deletions) × (length line.old ≡ most_processes) }
    ensures performs { Performs (run_of w.old) d (run_of w.new) result.summary deleted.new }
    ensures sound_value { result.sound ≡ sound (run_of w.new) }
    ensures leaves { Leaves w.old w.new }
{
    match d {
        None => refuse(Refusal::MalformedRecord, still),
        Some(e) => {
            if still {
                event_on(w, reached, e, deleted, line)
            } else {
                refuse(Refusal::UnsoundState, false)
            }
        }
    }
}
