// Document 02, Note 8: named checkpoints, which come as a lent slice of structs, for the earliest consistent line through them.

// list.rt: what is copied out of a lent list of named checkpoints
pub mod list;

// pairs.rt: what was copied, as pairs of numbers
pub mod pairs;
