// Tries a checkpoint spacing: `simulate N SPACING STEPS SEED` prints the five figures of a simulation, each with its name, one a line; `simulate N FROM-TO STEPS
// SEED` prints a row for each spacing from FROM to TO, a table that a plot can read. What is out of range is refused with 22. What it asks of the system, and when, is
// said and proved in `machine_simulate`: this program only obeys.

#![tactic(auto)]

ghost use Rattle.laws.specs.Basics.{length};
ghost use Rattle.machines.specs.Machines.{Ended};
ghost use Rattle.machine_simulate.specs.{Simulating.simulating, Words.EnoughRoom, Words.state_of};

use machines::Request;
use machines::streams::Streams;
use std::env::Env;
use std::fs::File;
use std::rt::Files;

// Each request is obeyed, and what came of it handed back, until the machine stops.
fn drive<R: Env + Files<File = File>>(
    rt: &R,
    streams: &mut Streams,
    memory: &mut [u64],
    input: &mut [u8],
    out: &mut [u8],
) -> Request
    requires { EnoughRoom (length memory.old) (length input.old) (length out.old) }
    ensures { Ended simulating (state_of memory.new input.new out.new) }
{
    let mut request = machine_simulate::begin(memory, input, out);
    let mut source = machines::standard_input();
    while machines::goes_on(request) {
        let obeyed = machines::obey(rt, streams, request, source, input, out);
        let answer = obeyed.answer;
        let next = obeyed.source;
        source = next;
        request = machine_simulate::step(memory, input, out, answer);
    }
    request
}

fn main(rt: HostRuntime) {
    let mut streams = Streams::new(rt.stdin(), rt.stdout(), rt.stderr());
    let mut memory = [0u64; 8];
    let mut input = [0u8; machine_simulate::LONGEST_WORD];
    let mut out = [0u8; machine_simulate::LONGEST_TEXT];
    drive(&rt, &mut streams, &mut memory, &mut input, &mut out);
}
