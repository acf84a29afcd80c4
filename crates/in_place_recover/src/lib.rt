// The recovery of a failed set: each process goes back to its member of the line, its pins are moved and what no pin names is deleted; the messages that were sent up
// to the line stay under way. For the empty set nobody goes back: it is a sweep.

#![tactic(auto)]

ghost use Rattle.std.specs.Prelude.{◌≡◌, ◌*◌, ◌≤◌, ◌<◌, Err, Ok};
ghost use Rattle.laws.specs.Basics.{true, length, get_or, sets, pick};
ghost use Rattle.laws.specs.Tests.{count_below};
ghost use Rattle.model.specs.{Sound.sound, Words.most_processes};
ghost use Rattle.model.specs.declared.Refusal.{Refusal};
ghost use Rattle.admissions.specs.Admissions.{recovery_admission_of};
ghost use Rattle.whole_runs.specs.{Outcomes.pairs, Outcomes.recover_outcome, Clean.CleanPromise, Sweep.SweepPromise};
ghost use Rattle.whole_runs.specs.WholeRuns.{LinePromise, StatePromise};
ghost use Rattle.words.specs.Layout.{count_of, run_of, state_size};
ghost use Rattle.in_place_recover.specs.{Restored.goes_back, Recovering.losses_then, Recovering.AllRestorable, Recovering.Restored};
ghost use Rattle.in_place.specs.Left.{Leaves};
ghost use Rattle.whole_runs.specs.Calls as made;

use model::{Interval, PROCESSES, RecoverAnswer, Recovery, Refusal};
use words::places;

// process.rt: the recovery of one process, on its part of the words
pub mod process;

// 1 if the member of process p, in the place before this one, is a kept checkpoint: the process goes back to it.
fn one_if_rolled_back(w: &[u16], p: usize, past: u16) -> usize
    requires { (length w.now ≡ state_size) × (p < most_processes) }
    ensures { result ≡ pick (goes_back w.now p past) 1 0 }
{
    if past <= w[places::KEPT + p] { 1 } else { 0 }
}

// How many of n processes go back.
fn count_rolled_back(w: &[u16], n: usize, pasts: &[u16]) -> usize
    requires { (length w.now ≡ state_size) × (n ≤ most_processes) × (n ≤ length pasts.now) }
    ensures { result ≡ count_below n (λ p. goes_back w.now p (get_or pasts.now p 0)) }
{
    let mut back = 0;
    for p in 0..n {
        let past = pasts[p];
        let one = one_if_rolled_back(w, p, past);
        back += one;
    }
    back
}

// Each of n processes after the recovery, one after the other. The pairs of what is deleted go to the front of the lent list; the result says how many there are.
fn restore_all(
    w: &mut [u16],
    n: usize,
    pasts: &[u16],
    owns: [Interval; PROCESSES],
    deleted: &mut [u16],
) -> usize
    requires { (sound (run_of w.old) ≡ true) × (n ≡ count_of w.old) × (2 * n * n ≤ length deleted.old) × AllRestorable n pasts.now w.old }
    ensures restored { Restored w.old pasts.now owns n w.new }
    ensures deleted_after { deleted.new ≡ sets deleted.old 0 (pairs (losses_then w.old pasts.now owns n)) }
    ensures value { result ≡ length (losses_then w.old pasts.now owns n) }
{
    let mut gone = 0;
    for p in 0..n {
        let past = pasts[p] as usize;
        let less = crate::process::restore::restore(w, p, past, owns, deleted, gone);
        gone += less;
    }
    gone
}

// A failed set that is within the run: every process goes back if the line rule accepts a state of each process.
fn recover_within(
    w: &mut [u16],
    n: usize,
    failed: u32,
    deleted: &mut [u16],
    line: &mut [u16],
) -> RecoverAnswer
    requires { (sound (run_of w.old) ≡ true) × (n ≡ count_of w.old) × (2 * n * n ≤ length deleted.old) × (n ≤ length line.old) × (recovery_admission_of n failed ≡ Ok tt) }
    ensures w_after { run_of w.new ≡ (recover_outcome (run_of w.old) failed deleted.old line.old).run }
    ensures value { result ≡ (recover_outcome (run_of w.old) failed deleted.old line.old).answer }
    ensures deleted_after { deleted.new ≡ (recover_outcome (run_of w.old) failed deleted.old line.old).deleted }
    ensures line_after { line.new ≡ (recover_outcome (run_of w.old) failed deleted.old line.old).line }
    ensures w_unchanged { (why : Refusal) → result ≡ Err why → w.new ≡ w.old }
    ensures leaves { Leaves w.old w.new }
{
    let limits = words_line::line::limits_of(w, n, failed);
    let mut table = [0u16; PROCESSES];
    let pasts: &mut [u16] = &mut table;
    let all = words_line::line::find_members(w, n, limits, pasts);
    if !all {
        return Err(Refusal::UnsoundState);
    }
    let indexes = words_line::line::indexes_of(w, n, pasts);
    let owns = crate::process::owns::owns_after(w, pasts);
    let back = count_rolled_back(w, n, pasts);
    in_place::line::write_line(line, indexes, n);
    let gone = restore_all(w, n, pasts, owns, deleted);
    words_line::sifted::sift(w, indexes);
    Ok(Recovery {
        rolled_back: back,
        deleted: gone,
    })
}

// The words stand for a sound state. Bit p of the failed set stands for process p.
pub fn recover_on(
    w: &mut [u16],
    failed: u32,
    deleted: &mut [u16],
    line: &mut [u16],
) -> RecoverAnswer
    requires { sound (run_of w.old) ≡ true }
    ensures w_after { run_of w.new ≡ (recover_outcome (run_of w.old) failed deleted.old line.old).run }
    ensures value { result ≡ (recover_outcome (run_of w.old) failed deleted.old line.old).answer }
    ensures deleted_after { deleted.new ≡ (recover_outcome (run_of w.old) failed deleted.old line.old).deleted }
    ensures line_after { line.new ≡ (recover_outcome (run_of w.old) failed deleted.old line.old).line }
    ensures w_unchanged { (why : Refusal) → result ≡ Err why → w.new ≡ w.old }
    ensures leaves { Leaves w.old w.new }
{
    let n = w[places::COUNT] as usize;
    let short = admissions::is_too_short(deleted.len(), line.len(), n);
    if short {
        return Err(Refusal::ListTooShort);
    }
    let admission = admissions::recovery_admission(failed, n);
    match admission {
        Err(why) => Err(why),
        Ok(()) => recover_within(w, n, failed, deleted, line),
    }
}

// Every process goes back to the line for a failed set: its indexes go to the front of the one lent list, what is deleted to the front of the other.
// Wherever calls from an accepted start led to the state of the words, the line is right, and so is what the words kept and then keep (demand 3); if the call is
// accepted, they keep a checkpoint exactly if some failure would use it (Note 6). Wherever they stand for a sound state, a recovery for the empty set rolls nobody back
// (Note 4).
pub fn recover(w: &mut [u16], failed: u32, deleted: &mut [u16], line: &mut [u16]) -> RecoverAnswer
    ensures w_after { run_of w.new ≡ (recover_outcome (run_of w.old) failed deleted.old line.old).run }
    ensures value { result ≡ (recover_outcome (run_of w.old) failed deleted.old line.old).answer }
    ensures deleted_after { deleted.new ≡ (recover_outcome (run_of w.old) failed deleted.old line.old).deleted }
    ensures line_after { line.new ≡ (recover_outcome (run_of w.old) failed deleted.old line.old).line }
    ensures w_unchanged { (why : Refusal) → result ≡ Err why → w.new ≡ w.old }
    ensures leaves { Leaves w.old w.new }
    ensures line_promise { LinePromise (run_of w.old) failed }
    ensures state_promise { StatePromise (run_of w.old) (made.recover failed deleted.old line.old) (run_of w.new) }
    ensures clean_promise { CleanPromise (run_of w.old) failed deleted.old line.old (run_of w.new) }
    ensures sweep_promise { SweepPromise (run_of w.old) failed deleted.old line.old result line.new (run_of w.new) }
{
    let sound = words_sound::is_sound(w);
    if !sound {
        return Err(Refusal::UnsoundState);
    }
    recover_on(w, failed, deleted, line)
}
