// Replays the trace on standard input: a line on standard output for each record. It stops after the line of the first refusal, unless it is started with the one argument
// `all`. What it asks of the system, and when, is stated and proved in `machine_replay`: this program only obeys.

#![tactic(auto)]

ghost use Rattle.std.specs.Prelude.{◌≡◌, ◌≤◌};
ghost use Rattle.laws.specs.Basics.{length};
ghost use Rattle.listing.specs.Lines.{longest_line};
ghost use Rattle.words.specs.Layout.{state_size};
ghost use Rattle.machines.specs.Machines.{Ended};
ghost use Rattle.machine_replay.specs.{Replaying.replaying, Standing.numbers, Standing.least_input, Standing.state_of};

use machines::Request;
use machines::streams::Streams;
use std::env::Env;
use std::fs::File;
use std::rt::Files;
use words::WORDS;

// Each request is obeyed, and what came of it handed back, until the machine stops.
fn drive<R: Env + Files<File = File>>(
    rt: &R,
    streams: &mut Streams,
    words: &mut [u16],
    memory: &mut [u64],
    input: &mut [u8],
    out: &mut [u8],
) -> Request
    requires { (numbers ≤ length memory.old) × (length words.old ≡ state_size) × (least_input ≤ length input.old) × (longest_line ≤ length out.old) }
    ensures { Ended (replaying (length input.old) (length out.old)) (state_of words.new memory.new input.new out.new) }
{
    let mut request = machine_replay::step::begin(words, memory, input, out);
    let mut source = machines::standard_input();
    while machines::goes_on(request) {
        let obeyed = machines::obey(rt, streams, request, source, input, out);
        let answer = obeyed.answer;
        let next = obeyed.source;
        source = next;
        request = machine_replay::step::step_reached(words, memory, input, out, answer);
    }
    request
}

fn main(rt: HostRuntime) {
    let mut streams = Streams::new(rt.stdin(), rt.stdout(), rt.stderr());
    let mut words = [0u16; WORDS];
    let mut memory = [0u64; 6];
    let mut input = [0u8; 65536];
    let mut out = [0u8; 65536];
    drive(
        &rt,
        &mut streams,
        &mut words,
        &mut memory,
        &mut input,
        &mut out,
    );
}
