// The program `console` as a machine.
ghost use Rattle.lemidrosy_machines.specs.Steps.{ConsoleBegun, ConsoleStepped};

use crate::{LIST_TOO_SHORT, REQUEST};
use machines::packed;

// Before anything is read. 3 also where the words are not as many as a run has.
#[unsafe(no_mangle)]
pub extern "C" fn lemidrosy_console_begin(
    words: &[u16],
    memory: &mut [u64],
    input: &[u8],
    out: &[u8],
    request: &mut [u64],
) -> u64
    ensures { ConsoleBegun words.now memory.old input.now out.now request.old
        memory.new request.new result }
{
    if !machine_console::has_room(memory.len(), words.len(), input.len(), out.len()) {
        return LIST_TOO_SHORT;
    }
    if request.len() < REQUEST {
        return LIST_TOO_SHORT;
    }
    let asked = machine_console::begin(memory, words, input, out);
    packed::pack(asked, request);
    0
}

// After an answer.
#[unsafe(no_mangle)]
pub extern "C" fn lemidrosy_console_step(
    words: &mut [u16],
    memory: &mut [u64],
    input: &[u8],
    out: &mut [u8],
    kind: u64,
    number: usize,
    request: &mut [u64],
) -> u64
    ensures { ConsoleStepped words.old memory.old input.now out.old kind number request.old
        words.new memory.new out.new request.new result }
{
    if request.len() < REQUEST {
        return LIST_TOO_SHORT;
    }
    let answer = packed::unpack(kind, number);
    let asked = machine_console::step(memory, words, input, out, answer);
    packed::pack(asked, request);
    0
}
