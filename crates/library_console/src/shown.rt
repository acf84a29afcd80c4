// What is shown to a caller of the words: its members of a line, and how many checkpoints each process keeps. No word changes.
ghost use Rattle.std.specs.Prelude.{◌≡◌, ◌≤◌};
ghost use Rattle.laws.specs.Basics.{length, get_or, pick};
ghost use Rattle.laws.specs.Loops.{set_below};
ghost use Rattle.model.specs.Words.{most_processes};
ghost use Rattle.whole_runs.specs.Outcomes.{line_outcome};
ghost use Rattle.words.specs.Layout.{run_of};
ghost use Rattle.theory_roles.specs.Console.{entitled_by, shown, console_line};
ghost use Rattle.library_console.specs.Asked.{line_as, counts_as};

use crate::denied;
use model::{LineAnswer, PROCESSES, Refusal};
use theory_roles::{Operation, Role};
use words::places;

// Of the first n places of a line those that the caller may see go to their places in the lent list. No other place of it changes.
fn write_seen(line: &mut [u16], whole: [u16; PROCESSES], role: Role, owned: u32, n: usize)
    requires { (n ≤ most_processes) × (n ≤ length line.old) }
    ensures { line.new ≡ set_below n (λ p. pick (entitled_by role owned n p) (get_or whole p 0) (get_or line.old p 0)) line.old }
{
    for p in 0..n {
        let seen = denied::is_entitled(role, owned, n, p);
        if seen {
            line[p] = whole[p];
        }
    }
}

// The line for a failed set goes to a list of the console's own, and of it the caller's members to the lent one. A lent list that is too short is refused by the
// call itself, which then writes nothing; any other has room for the n members.
fn seen_line(role: Role, owned: u32, w: &[u16], failed: u32, line: &mut [u16]) -> LineAnswer
    ensures value { result ≡ (line_outcome (run_of w.now) failed line.old).answer }
    ensures line_after { line.new ≡ shown (record { role = role; owned = owned }) (run_of w.now).count line.old (line_outcome (run_of w.now) failed line.old).line }
{
    let n = denied::count_of(w);
    if line.len() < n {
        return in_place::line::line(w, failed, line);
    }
    let mut whole = [0u16; PROCESSES];
    let answer = in_place::line::line(w, failed, &mut whole);
    match answer {
        Err(why) => Err(why),
        Ok(()) => {
            write_seen(line, whole, role, owned, n);
            Ok(())
        }
    }
}

// The line for a caller with this role.
fn line_as(role: Role, owned: u32, w: &[u16], failed: u32, line: &mut [u16]) -> LineAnswer
    ensures value { result ≡ (console_line (record { role = role; owned = owned }) (run_of w.now) failed line.old).answer }
    ensures line_after { line.new ≡ (console_line (record { role = role; owned = owned }) (run_of w.now) failed line.old).line }
{
    let allowed = theory_roles::may(role, Operation::Line);
    if !allowed {
        return Err(Refusal::Denied);
    }
    seen_line(role, owned, w, failed, line)
}

// The caller's members of the line for a failed set go to their places in the lent list, and no other place of it changes.
pub fn line(role: u32, owned: u32, w: &[u16], failed: u32, line: &mut [u16]) -> LineAnswer
    ensures w_value { run_of w.now ≡ (line_as role owned (run_of w.now) failed line.old).run }
    ensures value { result ≡ (line_as role owned (run_of w.now) failed line.old).answer }
    ensures line_after { line.new ≡ (line_as role owned (run_of w.now) failed line.old).line }
{
    let claim = denied::claim_of(role);
    match claim {
        None => Err(Refusal::Denied),
        Some(known) => line_as(known, owned, w, failed, line),
    }
}

// How many checkpoints each process keeps goes to the front of the lent list.
pub fn counts(role: u32, owned: u32, w: &[u16], line: &mut [u16]) -> LineAnswer
    ensures w_value { run_of w.now ≡ (counts_as role owned (run_of w.now) line.old).run }
    ensures value { result ≡ (counts_as role owned (run_of w.now) line.old).answer }
    ensures line_after { line.new ≡ (counts_as role owned (run_of w.now) line.old).line }
{
    let denied = denied::is_denied(role, Operation::Counts);
    if denied {
        return Err(Refusal::Denied);
    }
    let sound = words_sound::is_sound(w);
    if !sound {
        return Err(Refusal::UnsoundState);
    }
    let n = denied::count_of(w);
    let short = admissions::is_line_short(line.len(), n);
    if short {
        return Err(Refusal::ListTooShort);
    }
    library_readers::copy_words(w, places::KEPT, n, line);
    Ok(())
}
