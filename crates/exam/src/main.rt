// The exam sheet of document 01 by real calls, and cases of document 02 after it: every case makes its calls by `library_calls` and prints what they
// answered and left, one fact a line; for each delivery that a case is about, also the set of entries that rose (document 02, Note 1). The independent oracle
// prints the same text (`oracle --cases`, laid out above `print` in its cases.rs); the tests compare the two.

#![tactic(auto)]

use crate::act::After;
use crate::say::Sheet;
use machines::streams::Streams;
use model::{DELETIONS, PROCESSES};

// say.rt: text on standard output
mod say;

// act.rt: each call with the lists that it is lent, and the refusal number of its answer
mod act;

// facts.rt: what is printed of a state, of a delivery and of a recovery
mod facts;

// limits.rt: case 10
mod limits;

// disk.rt: the blocks on disk
mod disk;

// named.rt: the earliest line through named checkpoints
mod named;

// What a case says of the state that it reaches.
fn case(sheet: &mut Sheet, number: u64, s: After) {
    say::title(sheet, b"case", number);
    facts::state(sheet, s);
}

// Cases 1 to 6 follow the ten-record example, each after the records that its line of the sheet names. The state after
// record 4 is handed on: case 7 goes on from it too. The title of case 1 is the first text of all: `main` writes it.
fn cases_1_to_3(sheet: &mut Sheet) -> After {
    let start = act::start(2);
    let first = act::send(start, 0, 1);
    let second = facts::deliver(sheet, first, 1);
    facts::state(sheet, second);
    let third = act::checkpoint(second, 1, DELETIONS);
    case(sheet, 2, third);
    let fourth = act::checkpoint(third, 0, DELETIONS);
    case(sheet, 3, fourth);
    fourth
}

fn cases_4_to_6(sheet: &mut Sheet, fourth: After) {
    let fifth = act::send(fourth, 1, 0);
    say::title(sheet, b"case", 4);
    let sixth = facts::deliver(sheet, fifth, 2);
    facts::state(sheet, sixth);
    let seventh = act::send(sixth, 0, 1);
    say::title(sheet, b"case", 5);
    let eighth = facts::deliver(sheet, seventh, 3);
    facts::state(sheet, eighth);
    let ninth = act::recover(eighth, 1, DELETIONS, PROCESSES);
    case(sheet, 6, ninth);
}

// "After 4, recover {1} instead"
fn case_7(sheet: &mut Sheet, fourth: After) {
    say::title(sheet, b"case", 7);
    let recovered = facts::recover(sheet, fourth, 2);
    facts::state(sheet, recovered);
}

// "Three processes, 0 to 1 sent and delivered, then 1 to 2 sent and delivered"
fn case_8(sheet: &mut Sheet) {
    say::title(sheet, b"case", 8);
    let start = act::start(3);
    let first = act::send(start, 0, 1);
    let second = facts::deliver(sheet, first, 1);
    let third = act::send(second, 1, 2);
    let fourth = facts::deliver(sheet, third, 2);
    facts::state(sheet, fourth);
}

// The title of a case of two processes, and the state after its first call, a send from 0 to 1.
fn sent_once(sheet: &mut Sheet, words: &[u8], number: u64) -> After {
    say::title(sheet, words, number);
    let start = act::start(2);
    act::send(start, 0, 1)
}

// A recovery of a failed set, and the delivery of message 1 after it.
fn recovered(sheet: &mut Sheet, sent: After, failed: u16) {
    let back = facts::recover(sheet, sent, failed);
    let delivered = facts::deliver(sheet, back, 1);
    facts::state(sheet, delivered);
}

// "Two processes, send 0 to 1, recover {1}: line (1,0)"; document 02: "deliver 1 is then accepted"
fn case_9(sheet: &mut Sheet) {
    let sent = sent_once(sheet, b"case", 9);
    recovered(sheet, sent, 2);
}

// "Forcing whenever the sent mark is set, though nothing carried is newer": process 1 has sent, and message 2 brings it nothing.
fn mark_2(sheet: &mut Sheet) {
    let first = sent_once(sheet, b"mark", 2);
    let second = act::send(first, 0, 1);
    let known = facts::deliver(sheet, second, 1);
    let marked = act::send(known, 1, 0);
    let quiet = facts::deliver(sheet, marked, 2);
    facts::state(sheet, quiet);
}

// What a recovery loses, each case by the number of the message that it does: process 0 sends and then rolls back to before its send, or to between two sends.
fn lost_1(sheet: &mut Sheet) {
    let sent = sent_once(sheet, b"lost", 1);
    recovered(sheet, sent, 1);
}

fn lost_2(sheet: &mut Sheet) {
    let first = sent_once(sheet, b"lost", 2);
    let stored = act::checkpoint(first, 0, DELETIONS);
    let second = act::send(stored, 0, 1);
    let recovered = facts::recover(sheet, second, 1);
    let missing = facts::deliver(sheet, recovered, 2);
    let delivered = facts::deliver(sheet, missing, 1);
    facts::state(sheet, delivered);
}

// Nobody failed: a sweep that deletes, what it leaves, and after it the delivery of a message that was under way.
fn sweep_0(sheet: &mut Sheet) {
    let first = sent_once(sheet, b"sweep", 0);
    let second = act::checkpoint(first, 1, DELETIONS);
    let third = act::deliver(second, 1, DELETIONS);
    let fourth = act::checkpoint(third, 1, DELETIONS);
    let fifth = act::checkpoint(fourth, 0, DELETIONS);
    let sixth = act::send(fifth, 0, 1);
    let swept = facts::recover(sheet, sixth, 0);
    facts::state(sheet, swept);
    facts::deliver(sheet, swept, 2);
}

fn main(rt: HostRuntime) {
    let mut sheet = Sheet::new(Streams::new(rt.stdin(), rt.stdout(), rt.stderr()));
    if !say::begin(&mut sheet, b"case 1\n") {
        return;
    }
    let fourth = cases_1_to_3(&mut sheet);
    cases_4_to_6(&mut sheet, fourth);
    case_7(&mut sheet, fourth);
    case_8(&mut sheet);
    case_9(&mut sheet);
    limits::case_10(&mut sheet);
    mark_2(&mut sheet);
    lost_1(&mut sheet);
    lost_2(&mut sheet);
    sweep_0(&mut sheet);
    disk::disk_1(&mut sheet);
    disk::disk_2(&mut sheet);
    named::note_8(&mut sheet);
}
