// The program `simulate` as a machine.
ghost use Rattle.lemidrosy_machines.specs.Steps.{SimulateBegun, SimulateStepped};

use crate::{LIST_TOO_SHORT, REQUEST};
use machines::packed;

// Before anything is asked.
#[unsafe(no_mangle)]
pub extern "C" fn lemidrosy_simulate_begin(
    memory: &mut [u64],
    input: &[u8],
    out: &[u8],
    request: &mut [u64],
) -> u64
    ensures { SimulateBegun memory.old input.now out.now request.old
        memory.new request.new result }
{
    if machine_simulate::lacks_room(memory.len(), input.len(), out.len()) {
        return LIST_TOO_SHORT;
    }
    if request.len() < REQUEST {
        return LIST_TOO_SHORT;
    }
    let asked = machine_simulate::begin(memory, input, out);
    packed::pack(asked, request);
    0
}

// After an answer.
#[unsafe(no_mangle)]
pub extern "C" fn lemidrosy_simulate_step(
    memory: &mut [u64],
    input: &[u8],
    out: &mut [u8],
    kind: u64,
    number: usize,
    request: &mut [u64],
) -> u64
    ensures { SimulateStepped memory.old input.now out.old kind number request.old
        memory.new out.new request.new result }
{
    if request.len() < REQUEST {
        return LIST_TOO_SHORT;
    }
    let answer = packed::unpack(kind, number);
    let asked = machine_simulate::step(memory, input, out, answer);
    packed::pack(asked, request);
    0
}
