// The earliest consistent line through named checkpoints, by value (document 02, Note 8).
ghost use Rattle.std.specs.Prelude.{◌≡◌};
ghost use Rattle.laws.specs.Basics.{List, take};
ghost use Rattle.model.specs.declared.Named.{Named};
ghost use Rattle.whole_runs.specs.{Earliest.earliest_outcome, WholeRuns.EarliestPromise};
ghost use Rattle.words_line.specs.earliest.Copying.{copy_of, IsCopy};

use crate::run_words::fill;
use model::{LineAnswer, Named, PROCESSES, Refusal, Run};
use words::WORDS;
use words_line::earliest::list::Copied;

#[derive(Clone, Copy)]
pub struct EarliestOutcome {
    pub run: Run,
    pub answer: LineAnswer,
}

// The earliest line through the checkpoints of a list that was copied.
fn earliest_of(s: Run, copied: Copied, line: &mut [u16]) -> EarliestOutcome
    requires { IsCopy copied }
    ensures { (l : List Named) → copied ≡ copy_of l → (result.run ≡ (earliest_outcome s l line.old).run) × (result.answer ≡ (earliest_outcome s l line.old).answer) × (line.new ≡ (earliest_outcome s l line.old).line) }
{
    let few = fill::are_counts_fit(s.count, s.underway);
    if !few {
        let answer = Err(Refusal::UnsoundState);
        return EarliestOutcome { run: s, answer };
    }
    let mut w = [0u16; WORDS];
    fill::fill(&mut w, s);
    let pairs = words_line::earliest::pairs::pairs_of(copied);
    let numbers = pairs.numbers;
    let end = pairs.end;
    let answer = in_place::through::earliest(&w, &numbers[0..end], line);
    EarliestOutcome { run: s, answer }
}

// The earliest consistent line through every named checkpoint: its indexes go to the front of the lent line list. Nothing else changes.
// Wherever calls from an accepted start led to s, the line is right, and 20 is given only where no consistent line passes through all of them (document 02, Note 8). The
// line may name deleted checkpoints and live states: it is to be shown, not restarted from.
pub fn earliest(s: Run, named: &[Named], line: &mut [u16]) -> EarliestOutcome
    ensures run_value { result.run ≡ (earliest_outcome s named.now line.old).run }
    ensures answer_value { result.answer ≡ (earliest_outcome s named.now line.old).answer }
    ensures line_after { line.new ≡ (earliest_outcome s named.now line.old).line }
    ensures earliest_promise { EarliestPromise s named.now line.old }
{
    let copied = words_line::earliest::list::copy_out(named);
    earliest_of(s, copied, line)
}

// The same for a caller that has the named checkpoints at the front of an array.
pub fn earliest_among(
    s: Run,
    named: [Named; PROCESSES],
    length: usize,
    line: &mut [u16],
) -> EarliestOutcome
    ensures run_value { result.run ≡ (earliest_outcome s (take length named) line.old).run }
    ensures answer_value { result.answer ≡ (earliest_outcome s (take length named) line.old).answer }
    ensures line_after { line.new ≡ (earliest_outcome s (take length named) line.old).line }
    ensures earliest_promise { EarliestPromise s (take length named) line.old }
{
    let copied = words_line::earliest::list::copy_front(named, length);
    earliest_of(s, copied, line)
}
