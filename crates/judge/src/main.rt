// Judges the trace of another run-time on standard input: one line on standard output, `trackable`, `breaks P:K Q:X` or `refused R`. What it asks of the system, and
// when, is stated and proved in `machine_judge`: this program only obeys.

#![tactic(auto)]

ghost use Rattle.laws.specs.Basics.{length};
ghost use Rattle.machines.specs.Machines.{Ended};
ghost use Rattle.machine_judge.specs.{Judging.judging, Words.EnoughRoom, Words.state_of};

use machines::Request;
use machines::streams::Streams;
use std::env::Env;
use std::fs::File;
use std::rt::Files;

// Each request is obeyed, and what came of it handed back, until the machine stops.
fn drive<R: Env + Files<File = File>>(
    rt: &R,
    streams: &mut Streams,
    memory: &mut [u64],
    input: &mut [u8],
    out: &mut [u8],
) -> Request
    requires { EnoughRoom (length memory.old) (length input.old) (length out.old) }
    ensures { Ended judging (state_of memory.new input.new out.new) }
{
    let mut request = machine_judge::begin(memory, input, out);
    let mut source = machines::standard_input();
    while machines::goes_on(request) {
        let obeyed = machines::obey(rt, streams, request, source, input, out);
        let answer = obeyed.answer;
        let next = obeyed.source;
        source = next;
        request = machine_judge::step(memory, input, out, answer);
    }
    request
}

fn main(rt: HostRuntime) {
    let mut streams = Streams::new(rt.stdin(), rt.stdout(), rt.stderr());
    let mut memory = [0u64; 2];
    let mut input = [0u8; machine_judge::MOST_READ];
    let mut out = [0u8; machine_judge::LONGEST_VERDICT];
    drive(&rt, &mut streams, &mut memory, &mut input, &mut out);
}
