// The recovery of one process, on its part of the words. The own entries after the recovery are computed for all processes before any word is written, so each process
// is restored whole, one after the other.

// owns.rt: the own entries after a recovery
pub mod owns;

// restore.rt: one process after a recovery
pub mod restore;
