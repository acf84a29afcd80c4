// The replay for C: the part of what the library exports that stands in a crate, and so in an object file, of its own. The calls in place have no other callers there and
// are compiled into the loop over records. What is said of slices and answers in `lemidrosy` holds here, too.

#![tactic(auto)]

// The number of the answer to lists of which one is too short.
pub const LIST_TOO_SHORT: u64 = 3;

// replaying.rt: a block of records
pub mod replaying;

// machine.rt: the replay program as a machine
pub mod machine;
