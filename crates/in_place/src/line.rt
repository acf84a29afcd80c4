// The line for a failed set: the index of every process's member goes into the lent list. Nothing else changes.
ghost use Rattle.std.specs.Prelude.{◌≡◌, ◌≤◌, Err, Ok};
ghost use Rattle.laws.specs.Basics.{true, false, not, length, get_or, sets, pick};
ghost use Rattle.laws.specs.Lists.{table};
ghost use Rattle.model.specs.{Refusals.no_member_of, Sound.sound, Steps.line_of, Words.most_processes};
ghost use Rattle.model.specs.declared.Refusal.TheVariants.{UnsoundState};
ghost use Rattle.whole_runs.specs.{Outcomes.line_outcome, Sweep.EmptyLinePromise, WholeRuns.LinePromise};
ghost use Rattle.words.specs.Layout.{count_of, run_of};
ghost use Rattle.words_line.specs.Line.{limits_in, pasts_in, indexes_in};

use model::{CheckpointIndex, LineAnswer, PROCESSES, Refusal};
use words::places;

// The indexes of n members go to the front of the lent list.
pub fn write_line(line: &mut [u16], indexes: [CheckpointIndex; PROCESSES], n: usize)
    requires { (n ≤ most_processes) × (n ≤ length line.old) }
    ensures { line.new ≡ sets line.old 0 (table n (λ p. (get_or indexes p (record { 0 = 0 })).0)) }
{
    for p in 0..n {
        let index = indexes[p];
        line[p] = index.0;
    }
}

// Whether the line rule accepts a state of each process, and if so the indexes of these states.
#[derive(Clone, Copy)]
pub struct Members {
    pub all: bool,
    pub indexes: [CheckpointIndex; PROCESSES],
}

// The line's members for a failed set that is within the run.
pub fn members_of(w: &[u16], n: usize, failed: u32) -> Members
    requires { (sound (run_of w.now) ≡ true) × (n ≡ count_of w.now) }
    ensures all_value { result.all ≡ not (no_member_of (run_of w.now) failed) }
    ensures indexes_value { no_member_of (run_of w.now) failed ≡ false → result.indexes ≡ indexes_in w.now n (pasts_in w.now n (limits_in w.now n failed)) }
{
    let limits = words_line::line::limits_of(w, n, failed);
    let mut table = [0u16; PROCESSES];
    let pasts: &mut [u16] = &mut table;
    let all = words_line::line::find_members(w, n, limits, pasts);
    if !all {
        return Members {
            all,
            indexes: [CheckpointIndex(0); PROCESSES],
        };
    }
    let indexes = words_line::line::indexes_of(w, n, pasts);
    Members { all, indexes }
}

// A failed set that is within the run: the line is written if the rule accepts a state of each process.
fn line_within(w: &[u16], n: usize, failed: u32, line: &mut [u16]) -> LineAnswer
    requires { (sound (run_of w.now) ≡ true) × (n ≡ count_of w.now) × (n ≤ length line.old) }
    ensures value { result ≡ pick (no_member_of (run_of w.now) failed) (Err UnsoundState) (Ok tt) }
    ensures line_after { line.new ≡ pick (no_member_of (run_of w.now) failed) line.old (sets line.old 0 (line_of (run_of w.now) failed)) }
{
    let members = members_of(w, n, failed);
    if !members.all {
        return Err(Refusal::UnsoundState);
    }
    let indexes = members.indexes;
    write_line(line, indexes, n);
    Ok(())
}

// The words stand for a sound state. Bit p of the failed set stands for process p.
pub fn line_on(w: &[u16], failed: u32, line: &mut [u16]) -> LineAnswer
    requires { sound (run_of w.now) ≡ true }
    ensures w_value { run_of w.now ≡ (line_outcome (run_of w.now) failed line.old).run }
    ensures value { result ≡ (line_outcome (run_of w.now) failed line.old).answer }
    ensures line_after { line.new ≡ (line_outcome (run_of w.now) failed line.old).line }
{
    let n = w[places::COUNT] as usize;
    let short = admissions::is_line_short(line.len(), n);
    if short {
        return Err(Refusal::ListTooShort);
    }
    let admission = admissions::recovery_admission(failed, n);
    match admission {
        Err(why) => Err(why),
        Ok(()) => line_within(w, n, failed, line),
    }
}

// The line for a failed set, bit p of which stands for process p: its indexes go to the front of the lent list.
// Wherever calls from an accepted start led to the state of the words, the line is right, and so is what the words keep (demand 3). Wherever they stand for a sound state,
// the line for the empty set has every process live (Note 4).
pub fn line(w: &[u16], failed: u32, line: &mut [u16]) -> LineAnswer
    ensures w_value { run_of w.now ≡ (line_outcome (run_of w.now) failed line.old).run }
    ensures value { result ≡ (line_outcome (run_of w.now) failed line.old).answer }
    ensures line_after { line.new ≡ (line_outcome (run_of w.now) failed line.old).line }
    ensures line_promise { LinePromise (run_of w.now) failed }
    ensures empty_line_promise { EmptyLinePromise (run_of w.now) failed line.old result line.new }
{
    let sound = words_sound::is_sound(w);
    if !sound {
        return Err(Refusal::UnsoundState);
    }
    line_on(w, failed, line)
}
