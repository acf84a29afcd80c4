// The replay program as a machine, for a caller with files of its own.
ghost use Rattle.lemidrosy_replay.specs.Steps.{ReplayBegun, ReplayStepped};

use crate::LIST_TOO_SHORT;
use machine_replay::{place, step};
use machines::packed;

// How many numbers a request is.
const REQUEST: usize = 4;

// The replay before anything is asked. 0, or 3 where a list is too short.
#[unsafe(no_mangle)]
pub extern "C" fn lemidrosy_replay_begin(
    words: &[u16],
    memory: &mut [u64],
    input: &[u8],
    out: &[u8],
    request: &mut [u64],
) -> u64
    ensures { ReplayBegun words.now memory.old input.now out.now request.old
        memory.new request.new result }
{
    if memory.len() < place::NUMBERS {
        return LIST_TOO_SHORT;
    }
    if !place::is_room_enough(words.len(), input.len(), out.len()) {
        return LIST_TOO_SHORT;
    }
    if request.len() < REQUEST {
        return LIST_TOO_SHORT;
    }
    let asked = step::begin(words, memory, input, out);
    packed::pack(asked, request);
    0
}

// The replay after an answer. 0, or 3 where there is no room for the request.
#[unsafe(no_mangle)]
pub extern "C" fn lemidrosy_replay_step(
    words: &mut [u16],
    memory: &mut [u64],
    input: &mut [u8],
    out: &mut [u8],
    kind: u64,
    number: usize,
    request: &mut [u64],
) -> u64
    ensures { ReplayStepped words.old memory.old input.old out.old kind number request.old
        words.new memory.new input.new out.new request.new result }
{
    if request.len() < REQUEST {
        return LIST_TOO_SHORT;
    }
    let answer = packed::unpack(kind, number);
    let asked = step::step(words, memory, input, out, answer);
    packed::pack(asked, request);
    0
}
