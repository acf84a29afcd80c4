// A block of records in place: its whole records applied to the words one after the other, their lines printed into a lent buffer. The words are tested once, and once
// more after each recovery that deletes a checkpoint, which alone can leave words that stand for no sound state; a caller that knows that calls from a start led to them pays for no
// test.

#![tactic(auto)]

// record.rt: one record
pub mod record;

// block.rt: a block of records
pub mod block;
