// The bytes that the recorder writes.
ghost use Rattle.std.specs.Prelude.{◌≡◌, ◌+◌, ◌-◌, ◌≤◌};
ghost use Rattle.laws.specs.Basics.{true, not, eqb, ltb, length, sets, pick};
ghost use Rattle.model.specs.Trace.{fits};
ghost use Rattle.theory_recording.specs.Replay.{record_bytes};

use model::Event;

// Whether a buffer of `size` bytes has room for a record after a place: a place past the end leaves no byte.
pub fn has_room(size: usize, place: usize) -> bool
    ensures { result ≡ not (ltb (size - place) 4) }
{
    if size < place {
        return false;
    }
    4 <= size - place
}

// Four bytes go to a place, the rest of the buffer is unchanged.
fn put(buffer: &mut [u8], place: usize, bytes: [u8; 4])
    requires { place + 4 ≤ length buffer.old }
    ensures { buffer.new ≡ sets buffer.old place bytes }
{
    buffer[place] = bytes[0];
    buffer[place + 1] = bytes[1];
    buffer[place + 2] = bytes[2];
    buffer[place + 3] = bytes[3];
}

// The record of an event goes to a place. The answer is the place after it.
#[tactic(auto, unfolding(model::specs::Trace::encoded, theory_recording::specs::Replay::record_bytes))]
pub fn append(buffer: &mut [u8], place: usize, e: Event) -> usize
    requires place_in_bounds { place + 4 ≤ length buffer.old }
    requires e_value { fits e ≡ true }
    ensures buffer_after { buffer.new ≡ sets buffer.old place (record_bytes e) }
    ensures value { result ≡ place + length (record_bytes e) }
{
    let bytes = trace::encode(e).unwrap();
    put(buffer, place, bytes);
    place + 4
}

// The same for a call whose answer has this number, if it was accepted: its number is 0. A refused one writes nothing.
pub fn append_accepted(number: u8, buffer: &mut [u8], place: usize, e: Event) -> usize
    requires place_in_bounds { place + 4 ≤ length buffer.old }
    requires e_value { number ≡ 0 → fits e ≡ true }
    ensures buffer_after { buffer.new ≡ pick (eqb number 0) (sets buffer.old place (record_bytes e)) buffer.old }
    ensures value { result ≡ pick (eqb number 0) (place + length (record_bytes e)) place }
{
    if number != 0 {
        return place;
    }
    append(buffer, place, e)
}
