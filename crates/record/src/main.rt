// Plays the trace on standard input through the recorder, each record's call with the state that the one before left, and writes what was recorded to standard output:
// the first byte and the records of the accepted calls. `record BYTES` stands for a buffer of that many bytes. What it asks of the system, and when, is stated and proved in
// `machine_record`: this program only obeys.

#![tactic(auto)]

ghost use Rattle.std.specs.Prelude.{◌≡◌};
ghost use Rattle.laws.specs.Basics.{true, length};
ghost use Rattle.machines.specs.Machines.{Ended};
ghost use Rattle.machine_record.specs.{Machine.machine, Lent.has_room_of, Lent.state_of};

use machines::Request;
use machines::streams::Streams;
use std::env::Env;
use std::fs::File;
use std::rt::Files;
use words::WORDS;

// Each request is obeyed, and what came of it handed back, until the machine stops.
fn drive<R: Env + Files<File = File>>(
    rt: &R,
    streams: &mut Streams,
    memory: &mut [u64],
    words: &mut [u16],
    input: &mut [u8],
    out: &mut [u8],
    lines: &mut [u8],
) -> Request
    requires { has_room_of (length memory.old) (length words.old) (length input.old) (length out.old) (length lines.old) ≡ true }
    ensures { Ended machine (state_of memory.new words.new input.new out.new lines.new) }
{
    let mut request = machine_record::begin(memory, words, input, out, lines);
    let mut source = machines::standard_input();
    while machines::goes_on(request) {
        let obeyed = machines::obey(rt, streams, request, source, input, out);
        let answer = obeyed.answer;
        let next = obeyed.source;
        source = next;
        request = machine_record::step(memory, words, input, out, lines, answer);
    }
    request
}

fn main(rt: HostRuntime) {
    let mut streams = Streams::new(rt.stdin(), rt.stdout(), rt.stderr());
    let mut memory = [0u64; 6];
    let mut words = [0u16; WORDS];
    let mut input = [0u8; machine_record::INPUT_SIZE];
    let mut out = [0u8; machine_record::BLOCK_LINES];
    let mut lines = [0u8; machine_record::BLOCK_LINES];
    drive(
        &rt,
        &mut streams,
        &mut memory,
        &mut words,
        &mut input,
        &mut out,
        &mut lines,
    );
}
