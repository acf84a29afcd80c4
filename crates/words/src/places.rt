// Where each thing stands, as specs/Layout has it: the number of its first word. The functions say so, and a wrong number here would fail them.
ghost use Rattle.std.specs.Prelude.{◌≡◌, ◌<◌};
ghost use Rattle.model.specs.Words.{most_processes, most_under_way};
ghost use Rattle.words.specs.Layout.{kept_count_at_of, mark_at, blocks_at_of, part_at, pins_at_of, index_at_of, cause_at_of, stored_at, low_at, high_at, sender_at_of, receiver_at_of, carried_at};

use model::{MESSAGES, PROCESSES};

// How many words a row is: one for each process that a run may have.
pub const ROW: usize = PROCESSES;

// The numbers that a run has once.
pub const COUNT: usize = 0;

pub const UNDER_WAY: usize = 1;

pub const LAST: usize = 2;

pub const WRITTEN: usize = 4;

pub const DELETED: usize = 8;

pub const END: usize = 12;

// A row of each number that a process has once, from word 16 on.
pub const KEPT: usize = 16;

pub const MARKS: usize = KEPT + ROW;

pub const BLOCKS: usize = MARKS + ROW;

// The parts of the processes: each has a row of its vector, of its pins, of indexes and of causes, and a row for each of the checkpoints that it may keep.
pub const PARTS: usize = BLOCKS + ROW;

pub const PART: usize = 4 * ROW + PROCESSES * ROW;

// Within the part of process 0.
pub const PINS: usize = PARTS + ROW;

pub const INDEXES: usize = PINS + ROW;

pub const CAUSES: usize = INDEXES + ROW;

pub const STORED: usize = CAUSES + ROW;

// The messages.
pub const LOWS: usize = PARTS + PROCESSES * PART;

pub const HIGHS: usize = LOWS + MESSAGES;

pub const SENDERS: usize = HIGHS + MESSAGES;

pub const RECEIVERS: usize = SENDERS + MESSAGES;

pub const CARRIED: usize = RECEIVERS + MESSAGES;

pub fn kept_count_at(p: usize) -> usize
    requires { p < most_processes }
    ensures { result ≡ kept_count_at_of p }
{
    KEPT + p
}

pub fn mark_at(p: usize) -> usize
    requires { p < most_processes }
    ensures { result ≡ mark_at p }
{
    MARKS + p
}

pub fn blocks_at(p: usize) -> usize
    requires { p < most_processes }
    ensures { result ≡ blocks_at_of p }
{
    BLOCKS + p
}

pub fn part_at(p: usize) -> usize
    requires { p < most_processes }
    ensures { result ≡ part_at p }
{
    PARTS + PART * p
}

pub fn pins_at(p: usize) -> usize
    requires { p < most_processes }
    ensures { result ≡ pins_at_of p }
{
    PINS + PART * p
}

pub fn index_at(p: usize, k: usize) -> usize
    requires { (p < most_processes) × (k < most_processes) }
    ensures { result ≡ index_at_of p k }
{
    INDEXES + PART * p + k
}

pub fn cause_at(p: usize, k: usize) -> usize
    requires { (p < most_processes) × (k < most_processes) }
    ensures { result ≡ cause_at_of p k }
{
    CAUSES + PART * p + k
}

pub fn stored_at(p: usize, k: usize) -> usize
    requires { (p < most_processes) × (k < most_processes) }
    ensures { result ≡ stored_at p k }
{
    STORED + PART * p + ROW * k
}

pub fn low_at(k: usize) -> usize
    requires { k < most_under_way }
    ensures { result ≡ low_at k }
{
    LOWS + k
}

pub fn high_at(k: usize) -> usize
    requires { k < most_under_way }
    ensures { result ≡ high_at k }
{
    HIGHS + k
}

pub fn sender_at(k: usize) -> usize
    requires { k < most_under_way }
    ensures { result ≡ sender_at_of k }
{
    SENDERS + k
}

pub fn receiver_at(k: usize) -> usize
    requires { k < most_under_way }
    ensures { result ≡ receiver_at_of k }
{
    RECEIVERS + k
}

pub fn carried_at(k: usize) -> usize
    requires { k < most_under_way }
    ensures { result ≡ carried_at k }
{
    CARRIED + ROW * k
}
