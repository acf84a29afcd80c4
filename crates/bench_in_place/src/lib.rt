// What bench/in_place links besides the exported calls: the records of a trace as calls in place without the test. Text is left out. The result says how many records were
// accepted, which the driver compares.

#![tactic(auto)]

ghost use Rattle.std.specs.Prelude.{◌≡◌};
ghost use Rattle.laws.specs.Basics.{Some, length};
ghost use Rattle.model.specs.declared.Refusal.{Refusal};
ghost use Rattle.model.specs.Words.{ones, most_processes, most_deletions};
ghost use Rattle.whole_runs.specs.WholeRuns.{Reachable};
ghost use Rattle.words.specs.Layout.{run_of};
ghost use Rattle.in_place.specs.{Left.Leaves, Starting.start_refusal_in, Starting.start_words};
ghost use Rattle.bench_by_value.specs.Timed.{records_taken, timed_records, timed_trace};

use model::{DELETIONS, PROCESSES};

// Every record of a trace, on words to which calls from a start led.
fn apply_all(w: &mut [u16], trace: &[u8], deleted: &mut [u16], line: &mut [u16]) -> u64
    requires { Reachable (run_of w.old) × (length deleted.old ≡ most_deletions) × (length line.old ≡ most_processes) }
    ensures value { result ≡ (timed_records (run_of w.old) (records_taken trace.now)).accepted }
    ensures w_after { run_of w.new ≡ (timed_records (run_of w.old) (records_taken trace.now)).run }
    ensures leaves { Leaves w.old w.new }
{
    let mut accepted: u64 = 0;
    let mut still = true;
    let mut taken = 0;
    while bench_by_value::takes_next(trace, taken) {
        let part = trace::reader::record_after(trace, taken);
        let d = trace::decode(part);
        let applied = library_replay::record::apply(w, still, true, d, deleted, line);
        let summary = applied.summary;
        still = applied.sound;
        let one = bench_by_value::one_if(summary.number() == 0);
        accepted = accepted + one;
        taken += 1;
    }
    accepted
}

// The records of a trace as calls without the test, after a start of n processes with block counts of 1. Where the start is refused, none is accepted, and the words are
// as the start left them: zero, or unchanged where they are not as many as a state has.
#[unsafe(no_mangle)]
pub extern "C" fn timing_untested(w: &mut [u16], n: usize, trace: &[u8]) -> u64
    ensures value { result ≡ (timed_trace (start_refusal_in (length w.old) n ones) n trace.now).accepted }
    ensures w_after { run_of w.new ≡ (timed_trace (start_refusal_in (length w.old) n ones) n trace.now).run }
    ensures leaves { Leaves (start_words w.old n ones) w.new }
    ensures w_after_2 { (why : Refusal) → start_refusal_in (length w.old) n ones ≡ Some why → w.new ≡ start_words w.old n ones }
{
    let block_counts = [1u32; PROCESSES];
    let answer = in_place::start::start(w, n, &block_counts);
    if answer.is_err() {
        return 0;
    }
    let mut deletions = [0u16; DELETIONS];
    let deleted: &mut [u16] = &mut deletions;
    let mut indexes = [0u16; PROCESSES];
    let line: &mut [u16] = &mut indexes;
    apply_all(w, trace, deleted, line)
}
