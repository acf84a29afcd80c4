// The program `record` as a machine.
ghost use Rattle.lemidrosy_machines.specs.Steps.{RecordBegun, RecordStepped};

use crate::{LIST_TOO_SHORT, REQUEST};
use machines::packed;

// Before anything is asked. 3 also where the words are not as many as a run has.
#[unsafe(no_mangle)]
pub extern "C" fn lemidrosy_record_begin(
    memory: &mut [u64],
    words: &[u16],
    input: &[u8],
    out: &[u8],
    lines: &[u8],
    request: &mut [u64],
) -> u64
    ensures { RecordBegun memory.old words.now input.now out.now lines.now request.old
        memory.new request.new result }
{
    if !machine_record::has_room(
        memory.len(),
        words.len(),
        input.len(),
        out.len(),
        lines.len(),
    ) {
        return LIST_TOO_SHORT;
    }
    if request.len() < REQUEST {
        return LIST_TOO_SHORT;
    }
    let asked = machine_record::begin(memory, words, input, out, lines);
    packed::pack(asked, request);
    0
}

// After an answer.
#[unsafe(no_mangle)]
pub extern "C" fn lemidrosy_record_step(
    memory: &mut [u64],
    words: &mut [u16],
    input: &mut [u8],
    out: &mut [u8],
    lines: &mut [u8],
    kind: u64,
    number: usize,
    request: &mut [u64],
) -> u64
    ensures { RecordStepped memory.old words.old input.old out.old lines.old kind number request.old
        memory.new words.new input.new out.new lines.new request.new result }
{
    if request.len() < REQUEST {
        return LIST_TOO_SHORT;
    }
    let answer = packed::unpack(kind, number);
    let asked = machine_record::step(memory, words, input, out, lines, answer);
    packed::pack(asked, request);
    0
}
