// The squares of a state, each out of the struct that holds it alone and back into it.
ghost use Rattle.std.specs.Prelude.{◌≡◌};

use model::{Checkpoint, Interval, Kept, PROCESSES, Pin, Pins, Vectors};

// Row p: the current vector of process p.
pub fn vector_rows(v: Vectors) -> [[Interval; PROCESSES]; PROCESSES]
    ensures { result ≡ v.0 }
{
    v.0
}

pub fn vectors_from(rows: [[Interval; PROCESSES]; PROCESSES]) -> Vectors
    ensures { result ≡ record { 0 = rows } }
{
    Vectors(rows)
}

// Row p: the pins of process p.
pub fn pin_rows(v: Pins) -> [[Pin; PROCESSES]; PROCESSES]
    ensures { result ≡ v.0 }
{
    v.0
}

pub fn pins_from(rows: [[Pin; PROCESSES]; PROCESSES]) -> Pins
    ensures { result ≡ record { 0 = rows } }
{
    Pins(rows)
}

// Row p: the checkpoints that process p keeps.
pub fn kept_rows(v: Kept) -> [[Checkpoint; PROCESSES]; PROCESSES]
    ensures { result ≡ v.0 }
{
    v.0
}

pub fn kept_from(rows: [[Checkpoint; PROCESSES]; PROCESSES]) -> Kept
    ensures { result ≡ record { 0 = rows } }
{
    Kept(rows)
}
