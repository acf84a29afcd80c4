// Case 10: the limits of counts, lists, messages under way and intervals. Each line says 0 where the call is accepted, else the refusal number.
ghost use Rattle.std.specs.Prelude.{◌≤◌};
ghost use Rattle.model.specs.Words.{most_deletions, most_processes};

use crate::act::After;
use crate::say::Sheet;
use crate::{act, say};
use listing::Summary;
use model::{DELETIONS, PROCESSES};

// "Count 0 and 17: 1. Count 1 and 16: accepted."
fn start(sheet: &mut Sheet, n: usize) {
    let done = act::start(n);
    say::fact(sheet, b"start", n as u64, done.refused as u64);
}

// The answer of a call on a run of n processes that is lent a list of some length.
pub(crate) fn with_list(sheet: &mut Sheet, call: &[u8], n: usize, length: usize, refused: u8) {
    say::text(sheet, call);
    say::value(sheet, n as u64);
    say::value(sheet, length as u64);
    say::text(sheet, b":");
    say::value(sheet, refused as u64);
    say::end(sheet);
}

fn checkpoint(sheet: &mut Sheet, n: usize, length: usize)
    requires { length ≤ most_deletions }
{
    let start = act::start(n);
    let done = act::checkpoint(start, 0, length);
    with_list(sheet, b"checkpoint", n, length, done.refused);
}

fn deliver(sheet: &mut Sheet, n: usize, length: usize)
    requires { length ≤ most_deletions }
{
    let start = act::start(n);
    let sent = act::send(start, 0, 1);
    let done = act::deliver(sent, 1, length);
    with_list(sheet, b"deliver", n, length, done.refused);
}

fn recover(sheet: &mut Sheet, n: usize, length: usize)
    requires { length ≤ most_deletions }
{
    let start = act::start(n);
    let done = act::recover(start, 1, length, PROCESSES);
    with_list(sheet, b"recover", n, length, done.refused);
}

fn line(sheet: &mut Sheet, n: usize, length: usize)
    requires { length ≤ most_processes }
{
    let start = act::start(n);
    let mut line = [0u16; PROCESSES];
    let outcome = library_calls::line::line(start.run, 1, &mut line[..length]);
    let answer = outcome.answer;
    let summary = Summary::from(answer);
    with_list(sheet, b"line", n, length, summary.number());
}

fn recover_line(sheet: &mut Sheet, n: usize, length: usize)
    requires { length ≤ most_processes }
{
    let start = act::start(n);
    let done = act::recover(start, 1, DELETIONS, length);
    with_list(sheet, b"recoverline", n, length, done.refused);
}

// "Lists of 2 × n × n entries do, one less gives 3", and line lists of n entries. One process has nobody to deliver to.
fn lists(sheet: &mut Sheet, n: usize, pairs: usize)
    requires le_n { (1 ≤ n) × (n ≤ 16) }
    requires le_pairs { (1 ≤ pairs) × (pairs ≤ 512) }
{
    checkpoint(sheet, n, pairs);
    checkpoint(sheet, n, pairs - 1);
    if n != 1 {
        deliver(sheet, n, pairs);
        deliver(sheet, n, pairs - 1);
    }
    recover(sheet, n, pairs);
    recover(sheet, n, pairs - 1);
    line(sheet, n, n);
    line(sheet, n, n - 1);
    recover_line(sheet, n, n);
    recover_line(sheet, n, n - 1);
}

fn sends(before: After, i: usize, j: usize, times: usize) -> After {
    let mut s = before;
    for k in 0..times {
        s = act::send(s, i, j);
    }
    s
}

// "The 64th message under way is accepted, the 65th gives 9."
fn messages(sheet: &mut Sheet) {
    let start = act::start(2);
    let last = sends(start, 0, 1, 64);
    say::answer(sheet, b"send 64", last.refused);
    let more = act::send(last, 0, 1);
    say::answer(sheet, b"send 65", more.refused);
}

// "Own entry 65,534 may store, 65,535 may not." After k checkpoints an own entry is k + 1, so the last of 65,534 is stored at 65,534.
fn own_entries(sheet: &mut Sheet) {
    let start = act::start(1);
    let last = act::checkpoints(start, 0, 65534);
    say::answer(sheet, b"own 65534", last.refused);
    let more = act::checkpoint(last, 0, DELETIONS);
    say::answer(sheet, b"own 65535", more.refused);
}

// A delivery that forces a checkpoint, after that many others.
fn forced(times: usize) -> u8 {
    let start = act::start(2);
    let high = act::checkpoints(start, 1, times);
    let marked = act::send(high, 1, 0);
    let sent = act::send(marked, 0, 1);
    let done = act::deliver(sent, 2, DELETIONS);
    done.refused
}

// A delivery at own entry 65,535 that forces none: the sent mark is set, nothing carried is newer.
fn quiet() -> u8 {
    let start = act::start(2);
    let first = act::send(start, 0, 1);
    let second = act::send(first, 0, 1);
    let known = act::deliver(second, 1, DELETIONS);
    let high = act::checkpoints(known, 1, 65534);
    let marked = act::send(high, 1, 0);
    let done = act::deliver(marked, 2, DELETIONS);
    done.refused
}

pub(crate) fn case_10(sheet: &mut Sheet) {
    say::title(sheet, b"case", 10);
    start(sheet, 0);
    start(sheet, 1);
    start(sheet, 16);
    start(sheet, 17);
    lists(sheet, 1, 2);
    lists(sheet, 2, 8);
    lists(sheet, 16, DELETIONS);
    messages(sheet);
    own_entries(sheet);
    say::answer(sheet, b"forced 65534", forced(65533));
    say::answer(sheet, b"forced 65535", forced(65534));
    say::answer(sheet, b"quiet 65535", quiet());
}
