// One process's part of the words: its vector, its pins and the checkpoints that it keeps.

#![tactic(auto)]

// steps.rt: a checkpoint of a process, and a receipt at it, whole
pub mod steps;

// pins.rt: the pins of one process
pub mod pins;

// taking_in.rt: a vector takes a carried one in
pub mod taking_in;

// kept.rt: the checkpoints that one process keeps
pub mod kept;

// disk.rt: the blocks written and deleted
pub mod disk;
