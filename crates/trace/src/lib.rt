// The records of a trace: the part of the trace that a record is, the event that it stands for, and the record of an event.

#![tactic(auto)]

ghost use Rattle.std.specs.Prelude.{◌≡◌, ◌≤◌, ◌<◌};
ghost use Rattle.model.specs.Trace.{fields, if_zero_of, event_of_def, fields_of, word_of_def, encoded};
ghost use Rattle.trace.specs.Answers.{record_at, fields_read, event_in};

use model::{Event, Fields, PROCESSES};

// reader.rt: a reader of a trace: "A reader of a trace carries the lent trace together with the count of records taken
pub mod reader;

// "kind 3 bits, process 4 bits, argument 25 bits": how many arguments there are, how many processes a record can name, which are those of the largest run, and what a
// kind is worth.
pub const ARGUMENTS: u32 = 33554432;

pub const PROCESS_NAMES: u32 = PROCESSES as u32;

pub const KIND: u32 = PROCESS_NAMES * ARGUMENTS;

// "It hands a record on as the part of the trace with its four bytes, not as a copy." Where fewer than four bytes are left, the part is empty: its contract says so of every
// place, so it answers no Option.
#[tactic(auto, unfolding(crate::specs::Answers::record_at))]
pub fn record_part<'a>(trace: &'a [u8], at: usize) -> &'a [u8]
    ensures { result.now ≡ record_at trace.now at }
{
    let rest = trace.get(at..).unwrap_or(&[]);
    rest.get(..4).unwrap_or(&[])
}

// The fields of four bytes: a number of 32 bits, most significant byte first.
#[tactic(auto, unfolding(model::specs::Trace::fields, model::specs::Trace::word))]
fn fields_in(bytes: &[u8; 4]) -> Fields
    ensures { result ≡ fields bytes.now }
{
    let w = u32::from_be_bytes(*bytes);
    Fields {
        kind: w / KIND,
        process: (w / ARGUMENTS % PROCESS_NAMES) as usize,
        argument: w % ARGUMENTS,
    }
}

// The fields of a part of a trace; zeros where it is no four bytes long.
#[tactic(auto, unfolding(crate::specs::Answers::fields_read))]
pub fn read_fields(part: &[u8]) -> Fields
    ensures { result ≡ fields_read part.now }
{
    match part.as_array() {
        Some(bytes) => fields_in(bytes),
        None => Fields {
            kind: 0,
            process: 0,
            argument: 0,
        },
    }
}

#[tactic(auto, unfolding(model::specs::Trace::event_of_def, model::specs::Trace::if_zero_of))]
fn event_of(r: Fields) -> Option<Event>
    ensures { result ≡ event_of_def r }
{
    let process = r.process;
    let argument = r.argument;
    match r.kind {
        0 => (argument == 0).then_some(Event::Checkpoint(process)),
        1 => Some(Event::Send(process, argument)),
        2 => (process == 0).then_some(Event::Deliver(argument)),
        3 => (process == 0).then_some(Event::Lose(argument)),
        4 => (process == 0).then_some(Event::Recover(argument)),
        _ => None,
    }
}

// The event that a part of a trace stands for. A part that is no four bytes long is malformed: it stands for none.
#[tactic(auto, unfolding(crate::specs::Answers::event_in, model::specs::Trace::decoded))]
pub fn decode(part: &[u8]) -> Option<Event>
    ensures { result ≡ event_in part.now }
{
    event_of(fields_in(part.as_array()?))
}

#[tactic(auto, unfolding(model::specs::Trace::fields_of))]
fn fields_of(e: Event) -> Fields
    ensures { result ≡ fields_of e }
{
    match e {
        Event::Checkpoint(i) => Fields {
            kind: 0,
            process: i,
            argument: 0,
        },
        Event::Send(i, j) => Fields {
            kind: 1,
            process: i,
            argument: j,
        },
        Event::Deliver(m) => Fields {
            kind: 2,
            process: 0,
            argument: m,
        },
        Event::Lose(m) => Fields {
            kind: 3,
            process: 0,
            argument: m,
        },
        Event::Recover(failed) => Fields {
            kind: 4,
            process: 0,
            argument: failed,
        },
    }
}

#[tactic(auto, unfolding(model::specs::Trace::word_of_def))]
fn word_of(r: Fields) -> u32
    requires { (r.kind ≤ 4) × (r.process < 16) × (r.argument < 33554432) }
    ensures { result ≡ word_of_def r }
{
    r.kind * KIND + r.process as u32 * ARGUMENTS + r.argument
}

// The record of an event, if it fits: the process has 4 bits, the argument 25.
#[tactic(auto, using(model::proofs::Records::kind_small), unfolding(model::specs::Trace::encoded, model::specs::Trace::fits, model::specs::Trace::bytes_of_def))]
pub fn encode(e: Event) -> Option<[u8; 4]>
    ensures { result ≡ encoded e }
{
    let r = fields_of(e);
    if r.process < PROCESSES && r.argument < ARGUMENTS {
        return Some(word_of(r).to_be_bytes());
    }
    None
}
