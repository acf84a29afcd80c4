// Leaves on one process's part of the state, by value: its vector, and the rows as a state holds them. No whole state is touched here.
// A row has 16 places whatever the count of processes. Places at the count and above hold zero or no pin, so a loop over all 16 does what a loop
// over the processes would, and it has no exit on the way.

// squares.rt: the squares of vectors, pins and kept checkpoints, out of the struct that holds each and back into it
pub mod squares;

// start.rt: the rows of a process at the start of a run, and what unused places hold
pub mod start;

// vector.rt: dependency vectors, and the one function that makes a checkpoint's index of an interval's number
pub mod vector;

// checkpoint.rt: a checkpoint that is stored
pub mod checkpoint;
