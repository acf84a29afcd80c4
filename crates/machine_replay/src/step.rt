// A whole step: the answer of the system is taken, and the next request is handed back.
ghost use Rattle.std.specs.Prelude.{◌≡◌, ◌≤◌};
ghost use Rattle.laws.specs.Basics.{true, length};
ghost use Rattle.machines.specs.{Machines.stepped, Forms.answer_of, Forms.Asks};
ghost use Rattle.machine_replay.specs.Replaying.{starting, asks, replaying};
ghost use Rattle.machine_replay.specs.Standing.{numbers, enough_room, Holds, state_in, state_of, place_of, FromStart};

use crate::place::Place;
use crate::{phases, place, records};
use machines::{Answer, Request};

fn after(
    p: Place,
    words: &mut [u16],
    input: &mut [u8],
    out: &mut [u8],
    answer: Answer,
    reached: bool,
) -> Place
    requires { Holds p words.old input.old out.old × (reached ≡ true → FromStart (state_in p words.old input.old out.old)) }
    ensures { state_in result words.new input.new out.new ≡ stepped (replaying (length input.old) (length out.old)) (state_in p words.old input.old out.old) (answer_of answer p.buffered input.old) }
{
    let phase = p.phase;
    if (phase == place::READING) | (phase == place::PRINTING) {
        return phases::after_bytes(p, words, input, out, answer, reached);
    }
    match phase {
        place::STARTING => phases::after_count(p, words, input, out, answer),
        place::COUNTED => phases::after_word(p, words, input, out, answer),
        place::OPENING => phases::after_first(p, words, input, out, answer),
        place::ENDING => phases::after_last(p, words, input, out, answer),
        _ => records::with_text(place::STOPPED, 0),
    }
}

fn request_of(p: Place, words: &[u16], input: &[u8], out: &[u8]) -> Request
    requires { enough_room (length words.now) (length input.now) (length out.now) ≡ true }
    ensures { Asks result p.buffered input.now out.now (asks (length input.now) (state_in p words.now input.now out.now)) }
{
    if !place::is_inside(p, input.len(), out.len()) {
        return Request::Stop;
    }
    let phase = p.phase;
    let at = p.buffered;
    let written = p.written;
    match phase {
        place::STARTING => Request::Count,
        place::COUNTED => Request::Argument(1, at, 4),
        place::OPENING => Request::Read(at, 1),
        place::READING => Request::Read(
            at,
            machines::replay_input::buffer::fill_to(p.count, input.len()) - at,
        ),
        place::PRINTING => Request::Write(written),
        place::ENDING => Request::Write(written),
        place::FAILING => Request::Fail(written),
        _ => Request::Stop,
    }
}

// The first request.
pub fn begin(words: &[u16], memory: &mut [u64], input: &[u8], out: &[u8]) -> Request
    requires { (numbers ≤ length memory.old) × (enough_room (length words.now) (length input.now) (length out.now) ≡ true) }
    ensures out_after { state_of words.now memory.new input.now out.now ≡ starting }
    ensures asks { Asks result (place_of memory.new) input.now out.now (asks (length input.now) (state_of words.now memory.new input.now out.now)) }
{
    let p = records::with_text(place::STARTING, 0);
    place::store(memory, p);
    Request::Count
}

// On lists of which `reached` says whether calls from a start led to their words.
fn step_from(
    words: &mut [u16],
    memory: &mut [u64],
    input: &mut [u8],
    out: &mut [u8],
    answer: Answer,
    reached: bool,
) -> Request
    requires { reached ≡ true → FromStart (state_of words.old memory.old input.old out.old) }
    ensures out_after { state_of words.new memory.new input.new out.new ≡ stepped (replaying (length input.old) (length out.old)) (state_of words.old memory.old input.old out.old) (answer_of answer (place_of memory.old) input.old) }
    ensures asks { Asks result (place_of memory.new) input.new out.new (asks (length input.new) (state_of words.new memory.new input.new out.new)) }
{
    if memory.len() < place::NUMBERS {
        return Request::Stop;
    }
    if !place::is_room_enough(words.len(), input.len(), out.len()) {
        return Request::Stop;
    }
    let p = place::load(memory);
    if !place::is_inside(p, input.len(), out.len()) {
        return Request::Stop;
    }
    let q = after(p, words, input, out, answer, reached);
    place::store(memory, q);
    request_of(q, words, input, out)
}

// On any lists: those in which no state stands count as stopped.
pub fn step(
    words: &mut [u16],
    memory: &mut [u64],
    input: &mut [u8],
    out: &mut [u8],
    answer: Answer,
) -> Request
    ensures out_after { state_of words.new memory.new input.new out.new ≡ stepped (replaying (length input.old) (length out.old)) (state_of words.old memory.old input.old out.old) (answer_of answer (place_of memory.old) input.old) }
    ensures asks { Asks result (place_of memory.new) input.new out.new (asks (length input.new) (state_of words.new memory.new input.new out.new)) }
{
    step_from(words, memory, input, out, answer, false)
}

// The same on lists that `begin` and these steps alone left: their words need no test.
pub fn step_reached(
    words: &mut [u16],
    memory: &mut [u64],
    input: &mut [u8],
    out: &mut [u8],
    answer: Answer,
) -> Request
    requires { FromStart (state_of words.old memory.old input.old out.old) }
    ensures out_after { state_of words.new memory.new input.new out.new ≡ stepped (replaying (length input.old) (length out.old)) (state_of words.old memory.old input.old out.old) (answer_of answer (place_of memory.old) input.old) }
    ensures asks { Asks result (place_of memory.new) input.new out.new (asks (length input.new) (state_of words.new memory.new input.new out.new)) }
    ensures from_start { FromStart (state_of words.new memory.new input.new out.new) }
{
    step_from(words, memory, input, out, answer, true)
}
