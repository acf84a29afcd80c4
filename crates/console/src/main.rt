// Makes the console calls of a script on standard input (document 02, Note 13), an operator's start first, and prints what each answered and wrote, one line a call. What it
// asks of the system, and when, is stated and proved in `machine_console`: this program only obeys.

#![tactic(auto)]

ghost use Rattle.std.specs.Prelude.{◌≡◌};
ghost use Rattle.laws.specs.Basics.{true, length};
ghost use Rattle.machines.specs.Machines.{Ended};
ghost use Rattle.machine_console.specs.{Consoling.consoling, Lent.has_room_of, Lent.state_of};

use machines::Request;
use machines::streams::Streams;
use std::env::Env;
use std::fs::File;
use std::rt::Files;
use words::WORDS;

// Each request is obeyed, and what came of it handed back, until the machine stops.
fn drive<R: Env + Files<File = File>>(
    rt: &R,
    streams: &mut Streams,
    memory: &mut [u64],
    words: &mut [u16],
    input: &mut [u8],
    out: &mut [u8],
) -> Request
    requires { has_room_of (length memory.old) (length words.old) (length input.old) (length out.old) ≡ true }
    ensures { Ended consoling (state_of memory.new words.new input.new out.new) }
{
    let mut request = machine_console::begin(memory, words, input, out);
    let mut source = machines::standard_input();
    while machines::goes_on(request) {
        let obeyed = machines::obey(rt, streams, request, source, input, out);
        let answer = obeyed.answer;
        let next = obeyed.source;
        source = next;
        request = machine_console::step(memory, words, input, out, answer);
    }
    request
}

fn main(rt: HostRuntime) {
    let mut streams = Streams::new(rt.stdin(), rt.stdout(), rt.stderr());
    let mut memory = [0u64; 4];
    let mut words = [0u16; WORDS];
    let mut input = [0u8; machine_console::CALL_SIZE];
    let mut out = [0u8; machine_console::LONGEST_LINE];
    drive(
        &rt,
        &mut streams,
        &mut memory,
        &mut words,
        &mut input,
        &mut out,
    );
}
