// The records of a trace as calls by value, for bench/run to time. They are apart from `bench_in_place`: the calls by value are made of the calls in place, and a
// function with callers in both is compiled otherwise than it is for either.

#![tactic(auto)]

ghost use Rattle.std.specs.Prelude.{◌≡◌, ◌&&◌};
ghost use Rattle.laws.specs.Basics.{ltb, pick};
ghost use Rattle.model.specs.{Words.ones, Refusals.start_refusal};
ghost use Rattle.whole_runs.specs.Listing.{most_records};
ghost use Rattle.trace.specs.reader.Reading.{record_left_of};
ghost use Rattle.bench_by_value.specs.Timed.{records_taken, timed_records, timed_trace};

use model::{PROCESSES, Run};

// by_value.rt: a record on a state by value
mod by_value;

// "The program ends after record 1,000,000,000"
const MOST_RECORDS: usize = whole_runs::MOST_RECORDS as usize;

// What a record adds to the count.
pub fn one_if(accepted: bool) -> u64
    ensures { result ≡ pick accepted 1 0 }
{
    if accepted { 1 } else { 0 }
}

// A record is left, and it is not after the last that a replay takes.
pub fn takes_next(trace: &[u8], taken: usize) -> bool
    ensures { result ≡ (ltb taken most_records && record_left_of trace.now taken) }
{
    if MOST_RECORDS <= taken {
        return false;
    }
    trace::reader::record_left(trace, taken)
}

// Every record of a trace as a call by value: how many were accepted.
fn apply_by_value(s: Run, trace: &[u8]) -> u64
    ensures { result ≡ (timed_records s (records_taken trace.now)).accepted }
{
    let mut run = s;
    let mut accepted: u64 = 0;
    let mut taken = 0;
    while takes_next(trace, taken) {
        let part = trace::reader::record_after(trace, taken);
        let d = trace::decode(part);
        let after = by_value::apply(run, d);
        run = after.run;
        let one = one_if(after.accepted);
        accepted = accepted + one;
        taken += 1;
    }
    accepted
}

// The same after a start of n processes with block counts of 1. Where the start is refused, none is accepted.
pub fn timing_by_value(n: usize, trace: &[u8]) -> u64
    ensures { result ≡ (timed_trace (start_refusal n ones) n trace.now).accepted }
{
    let started = library_calls::start::start(n, [1; PROCESSES]);
    let answer = started.answer;
    if answer.is_err() {
        return 0;
    }
    apply_by_value(started.run, trace)
}
