// The types of the state, the answers and the events. Document 01's words and the rules of one call are definitions in specs/, the theorems about them are in
// proofs/. What a call's outcome is, lists of calls and the surviving history stand in the crate whole_runs.

#![tactic(auto)]

// The limits, each once. specs/Words has every one of them under the same sentence, by the name in parentheses. That the two are equal follows from the contracts: a call
// equals its definition, so it goes by the definition's number.
//
// "A run has n processes, 1 to 16, numbered from 0." (most_processes) A row has so many places, whatever n is.
pub const PROCESSES: usize = 16;

// "At most 64 messages are under way." (most_under_way)
pub const MESSAGES: usize = 64;

// "Message numbers run from 1 to 1,000,000" (most_messages)
pub const LAST_MESSAGE: u32 = 1000000;

// "Vector entries are 0 to 65,535." (most_interval)
pub const LAST_INTERVAL: u16 = 65535;

// Note 5: "block counts from 1 to 65,535" (most_block_count)
pub const MOST_BLOCK_COUNT: u32 = 65535;

// Note 5: "16 .. for a stored checkpoint that would take written past 1,000,000,000,000,000" (most_blocks)
pub const MOST_BLOCKS: u64 = 1000000000000000;

// "3: deletion list below 2 × n × n entries": so many do for every run (most_deletions).
pub const DELETIONS: usize = 2 * PROCESSES * PROCESSES;

// An interval's number. "An interval number is never read as a checkpoint index": the two are types of their own.
#[derive(Clone, Copy)]
pub struct Interval(pub u16);

// A checkpoint's number within its process.
#[derive(Clone, Copy)]
pub struct CheckpointIndex(pub u16);

// A pin (document 01's word): it names one kept checkpoint of its process, or none.
pub type Pin = Option<CheckpointIndex>;

// A stored checkpoint: its index, the dependency vector that it was stored with, its cause and its process's block count (Note 5).
#[derive(Clone, Copy)]
pub struct Checkpoint {
    pub index: CheckpointIndex,
    pub vector: [Interval; PROCESSES],
    // 0 initial, 1 basic, 2 forced
    pub cause: u8,
    pub blocks: u16,
}

// A message under way (document 01's word for in transit: sent, and neither received nor lost) with the vector that it carries.
#[derive(Clone, Copy)]
pub struct Message {
    pub number: u32,
    pub sender: usize,
    pub receiver: usize,
    pub vector: [Interval; PROCESSES],
}

// "The vectors form a square of n rows of n entries, and so do the pins." Each square stands alone in a struct of its own.
#[derive(Clone, Copy)]
pub struct Vectors(pub [[Interval; PROCESSES]; PROCESSES]);

#[derive(Clone, Copy)]
pub struct Pins(pub [[Pin; PROCESSES]; PROCESSES]);

// Row p: the checkpoints that process p keeps, ascending.
#[derive(Clone, Copy)]
pub struct Kept(pub [[Checkpoint; PROCESSES]; PROCESSES]);

// A checkpoint as a caller names it: a process, and the index of a checkpoint that it keeps.
#[derive(Clone, Copy)]
pub struct Named {
    pub process: usize,
    pub index: CheckpointIndex,
}

// "The state also carries blocks written and blocks deleted." (Note 5)
#[derive(Clone, Copy)]
pub struct Disk {
    pub written: u64,
    pub deleted: u64,
}

// The state of a run. Unused places hold zero, unused pins nothing.
#[derive(Clone, Copy)]
pub struct Run {
    // how many processes
    pub count: usize,
    // row p: the current dependency vector of p
    pub vectors: Vectors,
    // row p: the pins of p, one for each process
    pub pins: Pins,
    // the sent mark of each process: it has sent since its last checkpoint
    pub sent: [bool; PROCESSES],
    pub kept: Kept,
    // how many checkpoints each process keeps
    pub kept_count: [usize; PROCESSES],
    // the messages under way, ascending by number
    pub messages: [Message; MESSAGES],
    // how many messages are under way
    pub underway: usize,
    // the last message number used
    pub last: u32,
    pub disk: Disk,
}

// Why a call or a record is refused. specs/Refusals gives each its number, which is its discriminant. 6 is free since Note 4; 15 and above are document 02's.
#[derive(Clone, Copy)]
pub enum Refusal {
    CountOutsideRange = 1,
    UnsoundState,
    ListTooShort,
    NoSuchProcess,
    SenderIsReceiver,
    NoSuchFailedProcess = 7,
    NotUnderWay,
    TooManyUnderWay,
    MessageNumbersUsed,
    IntervalsUsed,
    NoFirstByte,
    LeftOverBytes,
    MalformedRecord,
    BlockCountOutsideRange,
    BlocksUsed,
    TooManyRecords,
    UnfitNamedList,
    NotKept,
    CausallyOrdered,
    BufferTooShort,
    TrialOutsideRange,
    HalvesMismatch,
    NeitherReady,
    Denied,
}

// What an accepted checkpoint answers: its index, and how many were deleted.
#[derive(Clone, Copy)]
pub struct Stored {
    pub index: CheckpointIndex,
    pub deleted: usize,
}

// What an accepted delivery answers: the index of the checkpoint that it forced, if it forced one, and how many were deleted.
#[derive(Clone, Copy)]
pub struct Delivery {
    pub forced: Option<CheckpointIndex>,
    pub deleted: usize,
}

// What an accepted recovery answers: how many processes rolled back, and how many checkpoints were deleted.
#[derive(Clone, Copy)]
pub struct Recovery {
    pub rolled_back: usize,
    pub deleted: usize,
}

// The answers: what the accepted call answers, or why it is refused.
pub type StartAnswer = Result<(), Refusal>;

pub type CheckpointAnswer = Result<Stored, Refusal>;

// The message's number.
pub type SendAnswer = Result<u32, Refusal>;

pub type DeliverAnswer = Result<Delivery, Refusal>;

pub type LoseAnswer = Result<(), Refusal>;

// The answer of a call that writes a line and changes no state: the line for a failed set, and the earliest line through named checkpoints.
pub type LineAnswer = Result<(), Refusal>;

pub type RecoverAnswer = Result<Recovery, Refusal>;

// How many bytes the merged trace has.
pub type MergeAnswer = Result<usize, Refusal>;

// The three fields of a record of a trace: 3, 4 and 25 bits.
#[derive(Clone, Copy)]
pub struct Fields {
    pub kind: u32,
    pub process: usize,
    pub argument: u32,
}

// What a record of a trace stands for. The argument is kept whole, all of its 25 bits.
#[derive(Clone, Copy)]
pub enum Event {
    Checkpoint(usize),
    Send(usize, u32),
    Deliver(u32),
    Lose(u32),
    Recover(u32),
}
