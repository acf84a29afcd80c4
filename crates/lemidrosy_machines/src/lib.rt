// The programs as machines, for C: a call takes what the system answered and says what to ask for next, so that a caller drives the same proved program with files of its own.
// The replay's is in `lemidrosy_replay`. What is said of slices in `lemidrosy` holds here, too. A machine works on the lists that it is lent, and its request goes to the last
// one. A call returns 0, or 3 where a list is too short: then it leaves them all as they were.

#![tactic(auto)]

// How many numbers a request is.
pub const REQUEST: usize = 4;

// The number of the answer to lists of which one is too short.
pub const LIST_TOO_SHORT: u64 = 3;

// judge.rt: the program `judge`
pub mod judge;

// simulate.rt: the program `simulate`
pub mod simulate;

// merge.rt: the program `merge`
pub mod merge;

// record.rt: the program `record`
pub mod record;

// console.rt: the program `console`
pub mod console;
