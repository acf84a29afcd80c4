// The replay program as a machine: it takes what the system answered and says what to ask for next. The state stands in lists that the caller lends: six numbers, the words
// of the run, a buffer for what is read and one for lines. Memory does not grow with the trace. What was replayed is written before more is read, so that no line that is
// due is lost when the input fails or stalls.

#![tactic(auto)]

// place.rt: the numbers of a state
pub mod place;

// records.rt: the records that were read are taken
mod records;

// phases.rt: where an answer leads, by phase
mod phases;

// step.rt: a whole step
pub mod step;
