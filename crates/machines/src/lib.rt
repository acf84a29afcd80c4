// What a program asks of the system and what the system answers, as numbers and places of two lent buffers: the bytes that are asked for go to a place of `input`,
// those that are handed out are the first of `out`. Which request and answer a form stands for is defined in `specs/Forms`; what a machine is, in `specs/Machines`.
// `obey` does what a request asks for: the only function of all programs that calls the system.

#![tactic(auto)]

// streams.rt: what a program holds of the system while it runs
pub mod streams;

// system.rt: one function for each kind of request
mod system;

// heard.rt: answers as a machine takes them
pub mod heard;

// packed.rt: requests and answers as numbers
pub mod packed;

// replay_input.rt: what a replay is given: the words that its program is started with, and the buffer that the blocks of a trace are read into
pub mod replay_input;

// programs.rt: what several programs share: the number that a word is, and texts printed into a lent buffer.
pub mod programs;

ghost use Rattle.std.specs.Prelude.{◌≡◌};
ghost use Rattle.laws.specs.Basics.{length};
ghost use Rattle.machines.specs.Forms.{goes_on_of, Placed, standard_input, from, Obeys};

use std::env::Env;
use std::fs::File;
use std::rt::Files;
use streams::Streams;

// Standard input's descriptor.
const STANDARD_INPUT: i32 = 0;

#[derive(Clone, Copy)]
pub enum Request {
    Count,
    // Word number, place and most bytes.
    Argument(usize, usize, usize),
    // That many bytes at the front of `out` are the name.
    Open(usize),
    // Place and most bytes.
    Read(usize, usize),
    Write(usize),
    Say(usize),
    Fail(usize),
    Stop,
}

#[derive(Clone, Copy)]
pub enum Answer {
    Number(usize),
    Bytes(usize),
    End,
    Done,
    Failed,
}

// Where bytes are read from: a descriptor of the system's.
#[derive(Clone, Copy)]
pub struct Source(i32);

// What came of a request, and where bytes are read from then on.
#[derive(Clone, Copy)]
pub struct Obeyed {
    pub answer: Answer,
    pub source: Source,
}

pub fn standard_input() -> Source
    ensures { result ≡ standard_input }
{
    let descriptor = STANDARD_INPUT;
    Source(descriptor)
}

// Whether there is anything to obey.
pub fn goes_on(request: Request) -> bool
    ensures { result ≡ goes_on_of request }
{
    match request {
        Request::Count => true,
        Request::Argument(_, _, _) => true,
        Request::Open(_) => true,
        Request::Read(_, _) => true,
        Request::Write(_) => true,
        Request::Say(_) => true,
        Request::Fail(_) => true,
        Request::Stop => false,
    }
}

// An answer, with the source as it is.
fn with_source(source: Source, answer: Answer) -> Obeyed
    ensures { result ≡ from source answer }
{
    Obeyed { answer, source }
}

// Does what a request asks for, and hands back what came of it.
pub fn obey<R: Env + Files<File = File>>(
    rt: &R,
    streams: &mut Streams,
    request: Request,
    source: Source,
    input: &mut [u8],
    out: &[u8],
) -> Obeyed
    requires { Placed request (length input.old) (length out.now) }
    ensures { Obeys request source input.old input.new result }
{
    match request {
        Request::Count => with_source(source, system::count(rt, request)),
        Request::Argument(i, at, most) => with_source(
            source,
            system::argument(rt, streams, request, i, at, most, input),
        ),
        Request::Open(size) => system::open(rt, streams, request, size, out, source),
        Request::Read(at, most) => with_source(
            source,
            system::read(streams, request, at, most, input, source),
        ),
        Request::Write(size) => with_source(source, system::write(streams, request, size, out)),
        Request::Say(size) => with_source(source, system::say(streams, request, size, out)),
        Request::Fail(size) => with_source(source, system::fail(streams, request, size, out)),
        Request::Stop => with_source(source, Answer::Done),
    }
}
