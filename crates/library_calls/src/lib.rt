// The calls by value: each fills words from the state, makes the call in place, and reads the state back; a refused one returns the state that it was handed. A state that
// is not sound is refused with number 2; one that does not fit its words is not sound.
//
// A state is 15,032 bytes, and copies of it cost more than the call. So each call has one variable for it, which is handed to `fill` and returned whatever the answer is:
// three copies are left, the one in, the one for `fill` and the one out. Where there are more processes or messages than places, no words are cleared.

#![tactic(auto)]

// judged.rt: whether a state is sound
pub mod judged;

// start.rt: the first state of a run
pub mod start;

// checkpoint.rt: a checkpoint is stored, and what no pin names any more is deleted
pub mod checkpoint;

// send.rt: a message is sent
pub mod send;

// deliver.rt: a message reaches its receiver
pub mod deliver;

// lose.rt: a message is lost
pub mod lose;

// line.rt: the line for a failed set
pub mod line;

// recover.rt: the recovery of a failed set
pub mod recover;

// through.rt: the earliest line through named checkpoints
pub mod through;

// run_words.rt: a state by value as words, and words as a state by value: for a call that takes a state and returns one, and is made on words in between.
pub mod run_words;
