// The line and the recovery of one process, on its part of the words.

#![tactic(auto)]

// sifted.rt: the messages that a recovery loses leave their places
pub mod sifted;

// line.rt: the line's member of each process
pub mod line;

// through.rt: the earliest line through named checkpoints
pub mod through;

// restored.rt: a process goes back to a checkpoint, and its pins after a recovery
pub mod restored;

// earliest.rt: document 02, Note 8: named checkpoints, which come as a lent slice of structs, for the earliest consistent line through them.
pub mod earliest;
