// The recorder on the calls in place (document 02, Note 9): each call once more, with the call's own arguments, then a lent buffer and the place that its next byte goes to.
// "A writer takes a call, does it, and appends the record to a lent buffer". What each function returns and leaves, refused or accepted, is in specs/Recording of the crate
// theory_recording, of the run that the words stand for; a start in place is in specs/Recorded here, with what a replay of the buffer gives.

#![tactic(auto)]

ghost use Rattle.std.specs.Prelude.{◌≡◌, Err};
ghost use Rattle.laws.specs.Basics.{length};
ghost use Rattle.model.specs.declared.Refusal.{Refusal};
ghost use Rattle.theory_recording.specs.Recording.{recorded_checkpoint, recorded_send, recorded_deliver, recorded_lose, recorded_line, recorded_recover, recorded_earliest};
ghost use Rattle.words.specs.{Clean.Clean, Layout.run_of, Layout.state_size};
ghost use Rattle.words_line.specs.Through.{named_in};
ghost use Rattle.in_place.specs.Left.{Leaves};
ghost use Rattle.library_recorder.specs.Recorded.{recorded_start_in, recorded_start_words};

use listing::Summary;
use model::{
    CheckpointAnswer, DeliverAnswer, Event, LineAnswer, LoseAnswer, RecoverAnswer, Refusal,
    SendAnswer, StartAnswer,
};

// without_room.rt: the answer of a call that has no room for its record
mod without_room;

// record.rt: the room and the bytes of a record.
mod record;

// What each call returns: its answer as without the recorder, and the place after what was written.
#[derive(Clone, Copy)]
pub struct StartRecorded {
    pub answer: StartAnswer,
    pub place: usize,
}

#[derive(Clone, Copy)]
pub struct CheckpointRecorded {
    pub answer: CheckpointAnswer,
    pub place: usize,
}

#[derive(Clone, Copy)]
pub struct SendRecorded {
    pub answer: SendAnswer,
    pub place: usize,
}

#[derive(Clone, Copy)]
pub struct DeliverRecorded {
    pub answer: DeliverAnswer,
    pub rose: u16,
    pub place: usize,
}

#[derive(Clone, Copy)]
pub struct LoseRecorded {
    pub answer: LoseAnswer,
    pub place: usize,
}

#[derive(Clone, Copy)]
pub struct LineRecorded {
    pub answer: LineAnswer,
    pub place: usize,
}

#[derive(Clone, Copy)]
pub struct RecoverRecorded {
    pub answer: RecoverAnswer,
    pub place: usize,
}

// A run of n processes: the count is the first byte of the buffer. A refused start leaves the place as it was.
pub fn start(
    w: &mut [u16],
    n: usize,
    block_counts: &[u32],
    buffer: &mut [u8],
    place: usize,
) -> StartRecorded
    ensures w_after { run_of w.new ≡ (recorded_start_in (length w.old) n block_counts.now buffer.old place).outcome.run }
    ensures answer_value { result.answer ≡ (recorded_start_in (length w.old) n block_counts.now buffer.old place).outcome.answer }
    ensures buffer_after { buffer.new ≡ (recorded_start_in (length w.old) n block_counts.now buffer.old place).buffer }
    ensures place_value { result.place ≡ (recorded_start_in (length w.old) n block_counts.now buffer.old place).place }
    ensures w_after_2 { w.new ≡ recorded_start_words w.old n block_counts.now buffer.old }
    ensures clean { length w.old ≡ state_size → Clean w.new }
{
    let answer = in_place::start::start(w, n, block_counts);
    let summary = Summary::from(answer);
    let number = summary.number();
    if number != 0 {
        return StartRecorded { answer, place };
    }
    if buffer.len() == 0 {
        let _ = in_place::start::start(w, 0, block_counts);
        let answer = Err(Refusal::BufferTooShort);
        return StartRecorded { answer, place };
    }
    buffer[0] = n as u8;
    StartRecorded { answer, place: 1 }
}

// Process i takes a checkpoint.
pub fn checkpoint(
    w: &mut [u16],
    i: usize,
    deleted: &mut [u16],
    buffer: &mut [u8],
    place: usize,
) -> CheckpointRecorded
    ensures w_after { run_of w.new ≡ (recorded_checkpoint (run_of w.old) i deleted.old buffer.old place).outcome.run }
    ensures answer_value { result.answer ≡ (recorded_checkpoint (run_of w.old) i deleted.old buffer.old place).outcome.answer }
    ensures deleted_after { deleted.new ≡ (recorded_checkpoint (run_of w.old) i deleted.old buffer.old place).outcome.deleted }
    ensures buffer_after { buffer.new ≡ (recorded_checkpoint (run_of w.old) i deleted.old buffer.old place).buffer }
    ensures place_value { result.place ≡ (recorded_checkpoint (run_of w.old) i deleted.old buffer.old place).place }
    ensures w_unchanged { (why : Refusal) → result.answer ≡ Err why → w.new ≡ w.old }
    ensures leaves { Leaves w.old w.new }
{
    let room = record::has_room(buffer.len(), place);
    if !room {
        let answer = without_room::checkpoint(w, i, deleted.len());
        return CheckpointRecorded { answer, place };
    }
    let answer = in_place::checkpoint::checkpoint(w, i, deleted);
    let summary = Summary::from(answer);
    let number = summary.number();
    let next = record::append_accepted(number, buffer, place, Event::Checkpoint(i));
    CheckpointRecorded {
        answer,
        place: next,
    }
}

// Process i sends a message to process j.
pub fn send(w: &mut [u16], i: usize, j: usize, buffer: &mut [u8], place: usize) -> SendRecorded
    ensures w_after { run_of w.new ≡ (recorded_send (run_of w.old) i j buffer.old place).outcome.run }
    ensures answer_value { result.answer ≡ (recorded_send (run_of w.old) i j buffer.old place).outcome.answer }
    ensures buffer_after { buffer.new ≡ (recorded_send (run_of w.old) i j buffer.old place).buffer }
    ensures place_value { result.place ≡ (recorded_send (run_of w.old) i j buffer.old place).place }
    ensures w_unchanged { (why : Refusal) → result.answer ≡ Err why → w.new ≡ w.old }
    ensures leaves { Leaves w.old w.new }
{
    let room = record::has_room(buffer.len(), place);
    if !room {
        let answer = without_room::send(w, i, j);
        return SendRecorded { answer, place };
    }
    let answer = in_place::send::send(w, i, j);
    let summary = Summary::from(answer);
    let number = summary.number();
    if number != 0 {
        return SendRecorded { answer, place };
    }
    let next = record::append(buffer, place, Event::Send(i, j as u32));
    SendRecorded {
        answer,
        place: next,
    }
}

// Message m reaches its receiver.
pub fn deliver(
    w: &mut [u16],
    m: u32,
    deleted: &mut [u16],
    buffer: &mut [u8],
    place: usize,
) -> DeliverRecorded
    ensures w_after { run_of w.new ≡ (recorded_deliver (run_of w.old) m deleted.old buffer.old place).outcome.run }
    ensures answer_value { result.answer ≡ (recorded_deliver (run_of w.old) m deleted.old buffer.old place).outcome.answer }
    ensures rose_value { result.rose ≡ (recorded_deliver (run_of w.old) m deleted.old buffer.old place).outcome.rose }
    ensures deleted_after { deleted.new ≡ (recorded_deliver (run_of w.old) m deleted.old buffer.old place).outcome.deleted }
    ensures buffer_after { buffer.new ≡ (recorded_deliver (run_of w.old) m deleted.old buffer.old place).buffer }
    ensures place_value { result.place ≡ (recorded_deliver (run_of w.old) m deleted.old buffer.old place).place }
    ensures w_unchanged { (why : Refusal) → result.answer ≡ Err why → w.new ≡ w.old }
    ensures leaves { Leaves w.old w.new }
{
    let room = record::has_room(buffer.len(), place);
    if !room {
        let answer = without_room::deliver(w, m, deleted.len());
        return DeliverRecorded {
            answer,
            rose: 0,
            place,
        };
    }
    let delivered = in_place::deliver::deliver(w, m, deleted);
    let answer = delivered.answer;
    let rose = delivered.rose;
    let summary = Summary::from(answer);
    let number = summary.number();
    let next = record::append_accepted(number, buffer, place, Event::Deliver(m));
    DeliverRecorded {
        answer,
        rose,
        place: next,
    }
}

// Message m is lost.
pub fn lose(w: &mut [u16], m: u32, buffer: &mut [u8], place: usize) -> LoseRecorded
    ensures w_after { run_of w.new ≡ (recorded_lose (run_of w.old) m buffer.old place).outcome.run }
    ensures answer_value { result.answer ≡ (recorded_lose (run_of w.old) m buffer.old place).outcome.answer }
    ensures buffer_after { buffer.new ≡ (recorded_lose (run_of w.old) m buffer.old place).buffer }
    ensures place_value { result.place ≡ (recorded_lose (run_of w.old) m buffer.old place).place }
    ensures w_unchanged { (why : Refusal) → result.answer ≡ Err why → w.new ≡ w.old }
    ensures leaves { Leaves w.old w.new }
{
    let room = record::has_room(buffer.len(), place);
    if !room {
        let answer = without_room::lose(w, m);
        return LoseRecorded { answer, place };
    }
    let answer = in_place::lose::lose(w, m);
    let summary = Summary::from(answer);
    let number = summary.number();
    let next = record::append_accepted(number, buffer, place, Event::Lose(m));
    LoseRecorded {
        answer,
        place: next,
    }
}

// The line for a failed set, bit p of which stands for process p. It is no event: the buffer and the place are as they were.
pub fn line(
    w: &[u16],
    failed: u32,
    line: &mut [u16],
    buffer: &mut [u8],
    place: usize,
) -> LineRecorded
    ensures w_value { run_of w.now ≡ (recorded_line (run_of w.now) failed line.old buffer.old place).outcome.run }
    ensures answer_value { result.answer ≡ (recorded_line (run_of w.now) failed line.old buffer.old place).outcome.answer }
    ensures line_after { line.new ≡ (recorded_line (run_of w.now) failed line.old buffer.old place).outcome.line }
    ensures buffer_after { buffer.new ≡ (recorded_line (run_of w.now) failed line.old buffer.old place).buffer }
    ensures place_value { result.place ≡ (recorded_line (run_of w.now) failed line.old buffer.old place).place }
{
    let answer = in_place::line::line(w, failed, line);
    LineRecorded { answer, place }
}

// Every process goes back to the line for a failed set; with an empty set a sweep.
pub fn recover(
    w: &mut [u16],
    failed: u32,
    deleted: &mut [u16],
    line: &mut [u16],
    buffer: &mut [u8],
    place: usize,
) -> RecoverRecorded
    ensures w_after { run_of w.new ≡ (recorded_recover (run_of w.old) failed deleted.old line.old buffer.old place).outcome.run }
    ensures answer_value { result.answer ≡ (recorded_recover (run_of w.old) failed deleted.old line.old buffer.old place).outcome.answer }
    ensures deleted_after { deleted.new ≡ (recorded_recover (run_of w.old) failed deleted.old line.old buffer.old place).outcome.deleted }
    ensures line_after { line.new ≡ (recorded_recover (run_of w.old) failed deleted.old line.old buffer.old place).outcome.line }
    ensures buffer_after { buffer.new ≡ (recorded_recover (run_of w.old) failed deleted.old line.old buffer.old place).buffer }
    ensures place_value { result.place ≡ (recorded_recover (run_of w.old) failed deleted.old line.old buffer.old place).place }
    ensures w_unchanged { (why : Refusal) → result.answer ≡ Err why → w.new ≡ w.old }
    ensures leaves { Leaves w.old w.new }
{
    let room = record::has_room(buffer.len(), place);
    if !room {
        let answer = without_room::recover(w, failed, deleted.len(), line.len());
        return RecoverRecorded { answer, place };
    }
    let answer = in_place_recover::recover(w, failed, deleted, line);
    let summary = Summary::from(answer);
    let number = summary.number();
    let next = record::append_accepted(number, buffer, place, Event::Recover(failed));
    RecoverRecorded {
        answer,
        place: next,
    }
}

// The earliest line through named checkpoints (Note 8), pairs of numbers. It is no event: the buffer and the place are as they were.
pub fn earliest(
    w: &[u16],
    named: &[u32],
    line: &mut [u16],
    buffer: &mut [u8],
    place: usize,
) -> LineRecorded
    ensures w_value { run_of w.now ≡ (recorded_earliest (run_of w.now) (named_in named.now) line.old buffer.old place).outcome.run }
    ensures answer_value { result.answer ≡ (recorded_earliest (run_of w.now) (named_in named.now) line.old buffer.old place).outcome.answer }
    ensures line_after { line.new ≡ (recorded_earliest (run_of w.now) (named_in named.now) line.old buffer.old place).outcome.line }
    ensures buffer_after { buffer.new ≡ (recorded_earliest (run_of w.now) (named_in named.now) line.old buffer.old place).buffer }
    ensures place_value { result.place ≡ (recorded_earliest (run_of w.now) (named_in named.now) line.old buffer.old place).place }
{
    let answer = in_place::through::earliest(w, named, line);
    LineRecorded { answer, place }
}
