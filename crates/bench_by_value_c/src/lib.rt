// What bench/in_place links of `bench_by_value`, under the name that it has there. A crate is a library or what C links, and `bench_in_place` uses that one as a library.

#![tactic(auto)]

ghost use Rattle.std.specs.Prelude.{◌≡◌};
ghost use Rattle.model.specs.{Words.ones, Refusals.start_refusal};
ghost use Rattle.bench_by_value.specs.Timed.{timed_trace};

// Every record of a trace as a call by value, after a start of n processes with block counts of 1: how many were accepted. Where the start is refused, none is.
#[unsafe(no_mangle)]
pub extern "C" fn timing_by_value(n: usize, trace: &[u8]) -> u64
    ensures { result ≡ (timed_trace (start_refusal n ones) n trace.now).accepted }
{
    bench_by_value::timing_by_value(n, trace)
}
