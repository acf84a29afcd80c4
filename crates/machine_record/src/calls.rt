// A record's call through the recorder, on the words, with a buffer and the place that its next byte goes to.
ghost use Rattle.std.specs.Prelude.{◌≡◌};
ghost use Rattle.laws.specs.Basics.{Some};
ghost use Rattle.trace.specs.Answers.{event_in};
ghost use Rattle.words.specs.Layout.{run_of};
ghost use Rattle.machine_record.specs.Played.{Plays};
ghost use Rattle.model.specs.declared.Event.TheVariants as event;

use listing::Summary;
use model::{DELETIONS, Event, PROCESSES};

// 0 or the number of the refusal, and the place after what was written.
#[derive(Clone, Copy)]
pub struct Played {
    pub refused: u8,
    pub place: usize,
}

fn checkpoint(w: &mut [u16], i: usize, buffer: &mut [u8], place: usize) -> Played
    ensures { Plays (run_of w.old) buffer.old place (Some (event.Checkpoint i)) (run_of w.new) buffer.new result }
{
    let mut deleted = [0u16; DELETIONS];
    let recorded = library_recorder::checkpoint(w, i, &mut deleted, buffer, place);
    let answer = recorded.answer;
    let summary = Summary::from(answer);
    let number = summary.number();
    Played {
        refused: number,
        place: recorded.place,
    }
}

fn send(w: &mut [u16], i: usize, j: usize, buffer: &mut [u8], place: usize) -> Played
    ensures { Plays (run_of w.old) buffer.old place (Some (event.Send i j)) (run_of w.new) buffer.new result }
{
    let recorded = library_recorder::send(w, i, j, buffer, place);
    let answer = recorded.answer;
    let summary = Summary::from(answer);
    let number = summary.number();
    Played {
        refused: number,
        place: recorded.place,
    }
}

fn deliver(w: &mut [u16], m: u32, buffer: &mut [u8], place: usize) -> Played
    ensures { Plays (run_of w.old) buffer.old place (Some (event.Deliver m)) (run_of w.new) buffer.new result }
{
    let mut deleted = [0u16; DELETIONS];
    let recorded = library_recorder::deliver(w, m, &mut deleted, buffer, place);
    let answer = recorded.answer;
    let summary = Summary::from(answer);
    let number = summary.number();
    Played {
        refused: number,
        place: recorded.place,
    }
}

fn lose(w: &mut [u16], m: u32, buffer: &mut [u8], place: usize) -> Played
    ensures { Plays (run_of w.old) buffer.old place (Some (event.Lose m)) (run_of w.new) buffer.new result }
{
    let recorded = library_recorder::lose(w, m, buffer, place);
    let answer = recorded.answer;
    let summary = Summary::from(answer);
    let number = summary.number();
    Played {
        refused: number,
        place: recorded.place,
    }
}

fn recover(w: &mut [u16], failed: u32, buffer: &mut [u8], place: usize) -> Played
    ensures { Plays (run_of w.old) buffer.old place (Some (event.Recover failed)) (run_of w.new) buffer.new result }
{
    let mut deleted = [0u16; DELETIONS];
    let mut line = [0u16; PROCESSES];
    let recorded = library_recorder::recover(w, failed, &mut deleted, &mut line, buffer, place);
    let answer = recorded.answer;
    let summary = Summary::from(answer);
    let number = summary.number();
    Played {
        refused: number,
        place: recorded.place,
    }
}

fn perform(w: &mut [u16], e: Event, buffer: &mut [u8], place: usize) -> Played
    ensures { Plays (run_of w.old) buffer.old place (Some e) (run_of w.new) buffer.new result }
{
    match e {
        Event::Checkpoint(i) => checkpoint(w, i, buffer, place),
        Event::Send(i, j) => send(w, i, j as usize, buffer, place),
        Event::Deliver(m) => deliver(w, m, buffer, place),
        Event::Lose(m) => lose(w, m, buffer, place),
        Event::Recover(failed) => recover(w, failed, buffer, place),
    }
}

// "14: .. given before any other number for that record."
pub fn play(w: &mut [u16], part: &[u8], buffer: &mut [u8], place: usize) -> Played
    ensures { Plays (run_of w.old) buffer.old place (event_in part.now) (run_of w.new) buffer.new result }
{
    let decoded = trace::decode(part);
    match decoded {
        None => Played { refused: 14, place },
        Some(e) => perform(w, e, buffer, place),
    }
}
