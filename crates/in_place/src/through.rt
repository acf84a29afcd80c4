// The earliest consistent line through named checkpoints (document 02, Note 8), which are pairs of numbers in a lent slice: process, index, process, index, and so on. Each
// number is judged whole. Numbers of which one is left over are no pairs, and name nothing. The line goes into the lent list; nothing else changes.
ghost use Rattle.std.specs.Prelude.{◌≡◌, ◌≤◌};
ghost use Rattle.laws.specs.Basics.{true, false, length};
ghost use Rattle.model.specs.Sound.{sound};
ghost use Rattle.whole_runs.specs.{Earliest.some_absent, Earliest.unfit, Earliest.earliest_outcome, WholeRuns.EarliestPromise};
ghost use Rattle.words.specs.Layout.{count_of, run_of};
ghost use Rattle.words_line.specs.Through.{pair_count_of, named_in};

use model::{LineAnswer, Refusal};
use words::places;

// A list of m pairs that is fit: numbers 19 and 20, then the line.
fn line_through(w: &[u16], named: &[u32], m: usize, n: usize, line: &mut [u16]) -> LineAnswer
    requires w_value { (sound (run_of w.now) ≡ true) × (n ≡ count_of w.now) × (n ≤ length line.old) × (m ≡ pair_count_of (length named.now)) }
    requires named_value { (some_absent (count_of w.now) (named_in named.now) ≡ false) × (unfit (count_of w.now) (named_in named.now) ≡ false) }
    ensures value { result ≡ (earliest_outcome (run_of w.now) (named_in named.now) line.old).answer }
    ensures line_after { line.new ≡ (earliest_outcome (run_of w.now) (named_in named.now) line.old).line }
{
    let found = words_line::through::find_starts(w, named, m);
    let all = found.all;
    if !all {
        return Err(Refusal::NotKept);
    }
    let starts = found.starts;
    let ordered = words_line::through::is_ordered(w, named, starts, m);
    if ordered {
        return Err(Refusal::CausallyOrdered);
    }
    words_line::through::write_greatest(w, starts, m, n, line);
    Ok(())
}

// The words stand for a sound state. Numbers 3, 4, 18, 19 and 20 in this order, then the line.
pub fn earliest_on(w: &[u16], named: &[u32], line: &mut [u16]) -> LineAnswer
    requires { sound (run_of w.now) ≡ true }
    ensures w_value { run_of w.now ≡ (earliest_outcome (run_of w.now) (named_in named.now) line.old).run }
    ensures value { result ≡ (earliest_outcome (run_of w.now) (named_in named.now) line.old).answer }
    ensures line_after { line.new ≡ (earliest_outcome (run_of w.now) (named_in named.now) line.old).line }
{
    let n = w[places::COUNT] as usize;
    let m = words_line::through::pair_count(named.len());
    let short = admissions::is_line_short(line.len(), n);
    if short {
        return Err(Refusal::ListTooShort);
    }
    let absent = words_line::through::names_absent(named, m, n);
    if absent {
        return Err(Refusal::NoSuchProcess);
    }
    let unfit = words_line::through::is_unfit(named, m, n);
    if unfit {
        return Err(Refusal::UnfitNamedList);
    }
    line_through(w, named, m, n, line)
}

// The earliest consistent line through every named checkpoint: its indexes go to the front of the lent line list.
// Wherever calls from an accepted start led to the state of the words, the line is right, and 20 is given only where no consistent line passes through all of them
// (document 02, Note 8). The line may name deleted checkpoints and live states: it is to be shown, not restarted from.
pub fn earliest(w: &[u16], named: &[u32], line: &mut [u16]) -> LineAnswer
    ensures w_value { run_of w.now ≡ (earliest_outcome (run_of w.now) (named_in named.now) line.old).run }
    ensures value { result ≡ (earliest_outcome (run_of w.now) (named_in named.now) line.old).answer }
    ensures line_after { line.new ≡ (earliest_outcome (run_of w.now) (named_in named.now) line.old).line }
    ensures earliest_promise { EarliestPromise (run_of w.now) (named_in named.now) line.old }
{
    let sound = words_sound::is_sound(w);
    if !sound {
        return Err(Refusal::UnsoundState);
    }
    earliest_on(w, named, line)
}
