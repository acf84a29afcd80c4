// The calls in place: each works on the words that the caller lends. A function with `_on` in its name requires that the words stand for a sound state; the same call
// without it tests that first, and refuses other words with number 2. A refused call leaves every word as it was.

#![tactic(auto)]

// start.rt: the first state of a run
pub mod start;

// checkpoint.rt: a checkpoint is stored, and what no pin names any more is deleted
pub mod checkpoint;

// send.rt: a message is sent
pub mod send;

// deliver.rt: a message reaches its receiver
pub mod deliver;

// lose.rt: a message is lost
pub mod lose;

// line.rt: the line for a failed set
pub mod line;

// through.rt: the earliest consistent line through named checkpoints
pub mod through;
