// Start, by value.
ghost use Rattle.std.specs.Prelude.{◌≡◌};
ghost use Rattle.whole_runs.specs.{Outcomes.start_outcome, WholeRuns.StartPromise};

use model::{PROCESSES, Run, StartAnswer};
use words::WORDS;

#[derive(Clone, Copy)]
pub struct StartOutcome {
    pub run: Run,
    pub answer: StartAnswer,
}

// A run of n processes, with the block count of each: the state in which it starts. The counts at n and above are neither judged nor stored.
// Accepted, what the returned state keeps and its blocks are right (demand 3).
pub fn start(n: usize, block_counts: [u32; PROCESSES]) -> StartOutcome
    ensures run_value { result.run ≡ (start_outcome n block_counts).run }
    ensures answer_value { result.answer ≡ (start_outcome n block_counts).answer }
    ensures start_promise { StartPromise n block_counts result.run }
{
    let mut w = [0u16; WORDS];
    let answer = in_place::start::start(&mut w, n, &block_counts);
    let run = crate::run_words::read::read(&w);
    StartOutcome { run, answer }
}
