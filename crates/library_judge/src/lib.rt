// Note 7 of document 02: a trace of another run-time is judged.

#![tactic(auto)]

// pattern.rt: the states and the messages that the reading makes
pub mod pattern;

// reading.rt: a trace is read, record by record
mod reading;

// decision.rt: the verdict on a trace that is read to its end, from what the reading left
pub mod decision;

ghost use Rattle.std.specs.Prelude.{◌≡◌};
ghost use Rattle.theory_patterns.specs.Verdicts.{verdict};
ghost use Rattle.library_judge.specs.Kept.{Counts};

use model::{Interval, PROCESSES, Refusal};
use pattern::{Fate, Sent, State};
use reading::{ROWS, Reading};
use theory_patterns::{MOST_JUDGED, Verdict};

// How many processes a trace has, or why none of its records is read: 12, 1, 17.
fn count(trace: &[u8]) -> Result<usize, Refusal>
    ensures { Counts trace.now result }
{
    let Some((first, records)) = trace.split_first() else {
        return Err(Refusal::NoFirstByte);
    };
    let n = usize::from(*first);
    if n < 1 || PROCESSES < n {
        return Err(Refusal::CountOutsideRange);
    }
    if MOST_JUDGED < records.len() / 4 {
        return Err(Refusal::TooManyRecords);
    }
    Ok(n)
}

// What a trace of another run-time is judged to be: refused with a number, trackable, or the first pair of states that breaks it. The refusals come in this order: 12, 1,
// 17, those of the records, 13.
pub fn judge(trace: &[u8]) -> Verdict
    ensures { result ≡ verdict trace.now }
{
    let n = count(trace)?;
    let zeros = [Interval(0); PROCESSES];
    let mut reading = Reading {
        states: [State {
            process: 0,
            vector: zeros,
        }; ROWS],
        rows: 0,
        current: [0; PROCESSES],
        messages: [Sent {
            from: 0,
            carried: zeros,
            fate: Fate::Lost,
        }; MOST_JUDGED],
        last: 0,
        underway: 0,
    };
    reading.begin(n);
    reading.read_all(trace, n)?;
    let states = &reading.states[..reading.rows];
    let messages = &reading.messages[..reading.last];
    Ok(decision::decide(states, messages, n))
}
