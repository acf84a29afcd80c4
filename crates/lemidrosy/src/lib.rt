// The library for C: the calls, what is read of the words, and what works on no state; the programs as machines are in `lemidrosy_machines`, the replay is in
// `lemidrosy_replay`. All of it is nothing but calls of what is proved below. A lent slice is a pointer and a length; it may be empty, and then its pointer counts for
// nothing. No function asks anything of its arguments: what does not fit is refused, and its number says why. An answer is one number with fields (`answers`,
// specs/Codes). Lent slices must not overlap.

#![tactic(auto)]

// calls.rt: the calls in place
pub mod calls;

// recorded.rt: the calls in place through the recorder
pub mod recorded;

// console.rt: the calls in place through the console
pub mod console;

// readings.rt: what is read of the words
pub mod readings;

// saving.rt: a state as bytes
pub mod saving;

// programs.rt: the judge of a trace, the merge of two halves, a simulation
pub mod programs;
