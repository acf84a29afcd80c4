// The line, by value.
ghost use Rattle.std.specs.Prelude.{◌≡◌};
ghost use Rattle.whole_runs.specs.{Outcomes.line_outcome, WholeRuns.LinePromise, Sweep.EmptyLinePromise};

use crate::run_words::fill;
use model::{LineAnswer, Refusal, Run};
use words::WORDS;

#[derive(Clone, Copy)]
pub struct LineOutcome {
    pub run: Run,
    pub answer: LineAnswer,
}

// The line for a failed set, bit p of which stands for process p: its indexes go to the front of the lent list. Nothing else changes.
// Wherever calls from an accepted start led to s, the line is right, and so is what s keeps (demand 3). Wherever s is sound, the line for the empty set has every
// process live (Note 4).
pub fn line(s: Run, failed: u16, line: &mut [u16]) -> LineOutcome
    ensures run_value { result.run ≡ (line_outcome s failed line.old).run }
    ensures answer_value { result.answer ≡ (line_outcome s failed line.old).answer }
    ensures line_after { line.new ≡ (line_outcome s failed line.old).line }
    ensures line_promise { LinePromise s failed }
    ensures empty_line_promise { EmptyLinePromise s failed line.old result.answer line.new }
{
    let few = fill::are_counts_fit(s.count, s.underway);
    if !few {
        let answer = Err(Refusal::UnsoundState);
        return LineOutcome { run: s, answer };
    }
    let run = s;
    let mut w = [0u16; WORDS];
    fill::fill(&mut w, run);
    let answer = in_place::line::line(&w, failed as u32, line);
    LineOutcome { run, answer }
}
