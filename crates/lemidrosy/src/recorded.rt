// The recorder (document 02, Note 9): each call in place once more, with the call's own arguments first, then a lent buffer and a lent list with the place that the buffer's
// next byte goes to. The buffer is a trace: its first byte is n, after it stand the records of the accepted calls. Refused with 21, after every other number, is a call whose
// record has no room after the place, and with 3, before any other number, one that is lent no place. A refused call leaves every word, entry and byte and the place as they
// were; a start with a place that is refused makes the words zero. What a replay of the buffer gives is the theorem of `library_recorder`, specs/Recorded.
ghost use Rattle.std.specs.Prelude.{◌≡◌, ◌≤◌, Err};
ghost use Rattle.laws.specs.Basics.{length};
ghost use Rattle.listing.specs.answers.Codes.{start_code, checkpoint_code, send_code, deliver_code, lose_code, line_code, recover_code};
ghost use Rattle.words.specs.{Clean.Clean, Layout.run_of, Layout.state_size};
ghost use Rattle.words_line.specs.Through.{named_in};
ghost use Rattle.lemidrosy.specs.Changes.{Changes};
ghost use Rattle.lemidrosy.specs.Recording.{start_at, start_words_at, checkpoint_at, send_at, deliver_at, lose_at, line_at, recover_at, earliest_at};

// The number of the answer to a call that is lent no place.
const NO_PLACE: u64 = 3;

// A run of n processes with the block count of each begins in the words: n is the first byte of the buffer, and the place is then 1, wherever it was.
#[unsafe(no_mangle)]
pub extern "C" fn lemidrosy_record_start(
    words: &mut [u16],
    n: usize,
    block_counts: &[u32],
    buffer: &mut [u8],
    place: &mut [u64],
) -> u64
    ensures fact { let o = start_at words.old n block_counts.now buffer.old place.old in
        (result ≡ start_code o.outcome.answer) × (run_of words.new ≡ o.outcome.run) × (buffer.new ≡ o.buffer) × (place.new ≡ o.places) }
    ensures words_after { words.new ≡ start_words_at words.old n block_counts.now buffer.old place.old }
    ensures clean { length words.old ≡ state_size → 1 ≤ length place.old → Clean words.new }
{
    if place.len() == 0 {
        return NO_PLACE;
    }
    let at = place[0] as usize;
    let recorded = library_recorder::start(words, n, block_counts, buffer, at);
    let answer = recorded.answer;
    place[0] = recorded.place as u64;
    listing::answers::of(answer, 0)
}

// A process takes a checkpoint.
#[unsafe(no_mangle)]
pub extern "C" fn lemidrosy_record_checkpoint(
    words: &mut [u16],
    process: usize,
    deleted: &mut [u16],
    buffer: &mut [u8],
    place: &mut [u64],
) -> u64
    ensures { let o = checkpoint_at (run_of words.old) process deleted.old buffer.old place.old in
        (result ≡ checkpoint_code o.outcome.answer) × (deleted.new ≡ o.outcome.deleted) × (buffer.new ≡ o.buffer) × (place.new ≡ o.places)
        × Changes Err o.outcome words.old words.new }
{
    if place.len() == 0 {
        return NO_PLACE;
    }
    let at = place[0] as usize;
    let recorded = library_recorder::checkpoint(words, process, deleted, buffer, at);
    let answer = recorded.answer;
    place[0] = recorded.place as u64;
    listing::answers::of(answer, 0)
}

// A process sends a message to another.
#[unsafe(no_mangle)]
pub extern "C" fn lemidrosy_record_send(
    words: &mut [u16],
    sender: usize,
    receiver: usize,
    buffer: &mut [u8],
    place: &mut [u64],
) -> u64
    ensures { let o = send_at (run_of words.old) sender receiver buffer.old place.old in
        (result ≡ send_code o.outcome.answer) × (buffer.new ≡ o.buffer) × (place.new ≡ o.places)
        × Changes Err o.outcome words.old words.new }
{
    if place.len() == 0 {
        return NO_PLACE;
    }
    let at = place[0] as usize;
    let recorded = library_recorder::send(words, sender, receiver, buffer, at);
    let answer = recorded.answer;
    place[0] = recorded.place as u64;
    listing::answers::of(answer, 0)
}

// A message reaches its receiver.
#[unsafe(no_mangle)]
pub extern "C" fn lemidrosy_record_deliver(
    words: &mut [u16],
    message: u32,
    deleted: &mut [u16],
    buffer: &mut [u8],
    place: &mut [u64],
) -> u64
    ensures { let o = deliver_at (run_of words.old) message deleted.old buffer.old place.old in
        (result ≡ deliver_code o.outcome.answer o.outcome.rose) × (deleted.new ≡ o.outcome.deleted)
        × (buffer.new ≡ o.buffer) × (place.new ≡ o.places)
        × Changes Err o.outcome words.old words.new }
{
    if place.len() == 0 {
        return NO_PLACE;
    }
    let at = place[0] as usize;
    let recorded = library_recorder::deliver(words, message, deleted, buffer, at);
    let answer = recorded.answer;
    place[0] = recorded.place as u64;
    listing::answers::of(answer, recorded.rose)
}

// A message is lost.
#[unsafe(no_mangle)]
pub extern "C" fn lemidrosy_record_lose(
    words: &mut [u16],
    message: u32,
    buffer: &mut [u8],
    place: &mut [u64],
) -> u64
    ensures { let o = lose_at (run_of words.old) message buffer.old place.old in
        (result ≡ lose_code o.outcome.answer) × (buffer.new ≡ o.buffer) × (place.new ≡ o.places)
        × Changes Err o.outcome words.old words.new }
{
    if place.len() == 0 {
        return NO_PLACE;
    }
    let at = place[0] as usize;
    let recorded = library_recorder::lose(words, message, buffer, at);
    let answer = recorded.answer;
    place[0] = recorded.place as u64;
    listing::answers::of(answer, 0)
}

// The line for a failed set. It is no event: the buffer and the place are as they were.
#[unsafe(no_mangle)]
pub extern "C" fn lemidrosy_record_line(
    words: &[u16],
    failed: u32,
    line: &mut [u16],
    buffer: &mut [u8],
    place: &mut [u64],
) -> u64
    ensures { let o = line_at (run_of words.now) failed line.old buffer.old place.old in
        (result ≡ line_code o.outcome.answer) × (line.new ≡ o.outcome.line) × (buffer.new ≡ o.buffer) × (place.new ≡ o.places) }
{
    if place.len() == 0 {
        return NO_PLACE;
    }
    let at = place[0] as usize;
    let recorded = library_recorder::line(words, failed, line, buffer, at);
    let answer = recorded.answer;
    place[0] = recorded.place as u64;
    listing::answers::of(answer, 0)
}

// Every process goes back to the line for a failed set; with an empty set a sweep.
#[unsafe(no_mangle)]
pub extern "C" fn lemidrosy_record_recover(
    words: &mut [u16],
    failed: u32,
    deleted: &mut [u16],
    line: &mut [u16],
    buffer: &mut [u8],
    place: &mut [u64],
) -> u64
    ensures { let o = recover_at (run_of words.old) failed deleted.old line.old buffer.old place.old in
        (result ≡ recover_code o.outcome.answer) × (deleted.new ≡ o.outcome.deleted) × (line.new ≡ o.outcome.line)
        × (buffer.new ≡ o.buffer) × (place.new ≡ o.places)
        × Changes Err o.outcome words.old words.new }
{
    if place.len() == 0 {
        return NO_PLACE;
    }
    let at = place[0] as usize;
    let recorded = library_recorder::recover(words, failed, deleted, line, buffer, at);
    let answer = recorded.answer;
    place[0] = recorded.place as u64;
    listing::answers::of(answer, 0)
}

// The earliest consistent line through the named checkpoints. It is no event: the buffer and the place are as they were.
#[unsafe(no_mangle)]
pub extern "C" fn lemidrosy_record_earliest(
    words: &[u16],
    named: &[u32],
    line: &mut [u16],
    buffer: &mut [u8],
    place: &mut [u64],
) -> u64
    ensures { let o = earliest_at (run_of words.now) (named_in named.now) line.old buffer.old place.old in
        (result ≡ line_code o.outcome.answer) × (line.new ≡ o.outcome.line) × (buffer.new ≡ o.buffer) × (place.new ≡ o.places) }
{
    if place.len() == 0 {
        return NO_PLACE;
    }
    let at = place[0] as usize;
    let recorded = library_recorder::earliest(words, named, line, buffer, at);
    let answer = recorded.answer;
    place[0] = recorded.place as u64;
    listing::answers::of(answer, 0)
}
