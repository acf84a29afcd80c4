// What works on no state: the judge of another run-time's trace (document 02, Note 7), the merge of two halves of one run (Note 12) and a simulation (Note 10).
ghost use Rattle.std.specs.Prelude.{◌≡◌, ◌≤◌, ◌<◌, Ok, Some};
ghost use Rattle.laws.specs.Basics.{None, length};
ghost use Rattle.listing.specs.answers.Codes.{coded, Fits};
ghost use Rattle.theory_merges.specs.{Halves.OrdersAgree, Merge.merge_outcome, Merge.merge_report, Merge.MergePromise};
ghost use Rattle.theory_patterns.specs.Verdicts.{verdict};
ghost use Rattle.theory_recording.specs.spacing.Spacing.{trial_refusal, AgreesWithReplay};
ghost use Rattle.lemidrosy.specs.Programs.{judge_code, PairFits, merge_code, figures_written, simulation};

use model::MergeAnswer;
use theory_patterns::{BreakingPair, Verdict};
use theory_recording::spacing::TrialResult;

// The weights of the fields of a pair that breaks.
const PAIR: u64 = 256;

const NEAR: u64 = 65536;

const NEAR_INDEX: u64 = 16777216;

const FAR: u64 = 1099511627776;

const FAR_INDEX: u64 = 281474976710656;

fn breaks_code(w: BreakingPair) -> u64
    requires { (w.near.process < 256) × (w.far.process < 256) }
    ensures { result ≡ judge_code (Ok (Some w)) }
{
    let near = w.near;
    let far = w.far;
    let near_end = NEAR * (near.process as u64) + NEAR_INDEX * (near.index.0 as u64);
    let far_end = FAR * (far.process as u64) + FAR_INDEX * (far.index.0 as u64);
    PAIR + near_end + far_end
}

fn verdict_code(v: Verdict) -> u64
    requires { PairFits v }
    ensures { result ≡ judge_code v }
{
    match v {
        Err(why) => listing::summaries::number_of(why) as u64,
        Ok(None) => 0,
        Ok(Some(w)) => breaks_code(w),
    }
}

// The verdict on a trace of another run-time.
#[unsafe(no_mangle)]
pub extern "C" fn lemidrosy_judge(trace: &[u8]) -> u64
    ensures { result ≡ judge_code (verdict trace.now) }
{
    let verdict = library_judge::judge(trace);
    verdict_code(verdict)
}

fn merge_code(a: MergeAnswer) -> u64
    requires { Fits (merge_report a) }
    ensures { result ≡ merge_code a }
{
    match a {
        Err(why) => library_readers::refused(why),
        Ok(bytes) => library_readers::counted(bytes),
    }
}

// The merge of two halves of one run, as bytes of a trace at the front of the lent list; bit p of the set says that process p belongs to the first half. The value says
// how many bytes were written. Both halves' orders are kept, a replay of the bytes is the run of the merged calls, and any other order whose records are all accepted
// ends the same.
#[unsafe(no_mangle)]
pub extern "C" fn lemidrosy_merge<'a>(
    first: &'a [u8],
    second: &'a [u8],
    set: u32,
    trace: &mut [u8],
) -> u64
    ensures value { result ≡ merge_code (merge_outcome first.now second.now set trace.old).answer }
    ensures trace_after { trace.new ≡ (merge_outcome first.now second.now set trace.old).buffer }
    ensures merge_promise { MergePromise first.now second.now set trace.old × OrdersAgree }
{
    let answer = library_halves::merge(first, second, set, trace);
    merge_code(answer)
}

// How many figures a simulation has, and the number of the answer to a list with fewer entries.
const FIGURES: usize = 5;

const LIST_TOO_SHORT: u64 = 3;

// The figures of a simulation go to the front of the lent list; of one that is refused, none do.
fn write_figures(figures: &mut [u64], res: TrialResult) -> u64
    requires { 5 ≤ length figures.old }
    ensures value { result ≡ coded (figures_written res figures.old).report 0 }
    ensures figures_after { figures.new ≡ (figures_written res figures.old).list }
{
    let found = res.figures;
    match res.answer {
        Err(why) => listing::summaries::number_of(why) as u64,
        Ok(()) => {
            figures[0] = found.deliveries as u64;
            figures[1] = found.forced as u64;
            figures[2] = found.most as u64;
            figures[3] = found.quotient as u64;
            figures[4] = found.remainder as u64;
            0
        }
    }
}

// A simulation of n processes with a checkpoint spacing, a number of steps and a starting value. Five figures go to the front of the lent list: the deliveries, the forced
// checkpoints, the most kept at any process after any step, and 1,000 times the forced checkpoints divided by the deliveries, as quotient and remainder. They are those
// of a replay of the same events.
#[unsafe(no_mangle)]
pub extern "C" fn lemidrosy_simulate(
    n: usize,
    spacing: u32,
    steps: u32,
    seed: u32,
    figures: &mut [u64],
) -> u64
    ensures value { result ≡ coded (simulation n spacing steps seed figures.old).report 0 }
    ensures figures_after { figures.new ≡ (simulation n spacing steps seed figures.old).list }
    ensures agrees_with_replay { trial_refusal n spacing steps ≡ None → AgreesWithReplay n spacing steps seed }
{
    if figures.len() < FIGURES {
        return LIST_TOO_SHORT;
    }
    let result = library_trials::simulate(n, spacing, steps, seed);
    write_figures(figures, result)
}
