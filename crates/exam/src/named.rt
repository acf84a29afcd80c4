// Note 8: the earliest line through named checkpoints, for some lists on one state of three processes, and with line lists of n entries and one less.
ghost use Rattle.std.specs.Prelude.{◌≤◌};

use crate::act::After;
use crate::say::Sheet;
use crate::{act, facts, limits, say};
use listing::Summary;
use model::{CheckpointIndex, DELETIONS, Named, PROCESSES};

// A list of named checkpoints at the front of an array, and its length.
#[derive(Clone, Copy)]
pub struct NamedList {
    pub named: [Named; PROCESSES],
    pub length: usize,
}

fn none() -> NamedList {
    let zero = Named {
        process: 0,
        index: CheckpointIndex(0),
    };
    let named = [zero; PROCESSES];
    NamedList { named, length: 0 }
}

// The list with one more after the others, where there is a place.
fn and(list: NamedList, process: usize, index: u16) -> NamedList {
    let at = list.length;
    if PROCESSES <= at {
        return list;
    }
    let c = Named {
        process,
        index: CheckpointIndex(index),
    };
    let mut named = list.named;
    named[at] = c;
    NamedList {
        named,
        length: at + 1,
    }
}

// The lists of one, two, three and four.
fn one(p: usize, i: u16) -> NamedList {
    let start = none();
    and(start, p, i)
}

fn two(p: usize, i: u16, q: usize, j: u16) -> NamedList {
    let list = one(p, i);
    and(list, q, j)
}

fn three(p: usize, i: u16, q: usize, j: u16, r: usize, k: u16) -> NamedList {
    let list = two(p, i, q, j);
    and(list, r, k)
}

fn four(p: usize, i: u16, q: usize, j: u16, r: usize, k: u16, t: usize, l: u16) -> NamedList {
    let list = three(p, i, q, j, r, k);
    and(list, t, l)
}

fn element(sheet: &mut Sheet, c: Named) {
    let index = c.index;
    say::value(sheet, c.process as u64);
    say::text(sheet, b":");
    say::number(sheet, index.0 as u64);
}

// The list, each as process:index: of up to four, as long as the lists below are.
fn elements(sheet: &mut Sheet, list: NamedList) {
    let named = list.named;
    let length = list.length;
    if 0 < length {
        element(sheet, named[0]);
    }
    if 1 < length {
        element(sheet, named[1]);
    }
    if 2 < length {
        element(sheet, named[2]);
    }
    if 3 < length {
        element(sheet, named[3]);
    }
    say::end(sheet);
}

// The first three indexes of a line.
fn indexes(sheet: &mut Sheet, line: &[u16; PROCESSES]) {
    say::value(sheet, facts::wide(line[0]));
    say::value(sheet, facts::wide(line[1]));
    say::value(sheet, facts::wide(line[2]));
}

// A list, and what the call answers: 0 and the line, or the refusal number.
fn show(sheet: &mut Sheet, s: After, number: u64, list: NamedList) {
    say::heading(sheet, b"named", number);
    elements(sheet, list);
    let named = list.named;
    let mut line = [0u16; PROCESSES];
    let outcome = library_calls::through::earliest_among(s.run, named, list.length, &mut line);
    let answer = outcome.answer;
    let summary = Summary::from(answer);
    let refused = summary.number();
    say::heading(sheet, b"earliest", number);
    say::value(sheet, refused as u64);
    if refused == 0 {
        indexes(sheet, &line);
    }
    say::end(sheet);
}

// The state: process 2 keeps three checkpoints, process 1 two, process 0 the last one.
fn shown() -> After {
    let start = act::start(3);
    let a = act::send(start, 0, 1);
    let b = act::deliver(a, 1, DELETIONS);
    let c = act::send(b, 1, 2);
    let d = act::checkpoint(c, 1, DELETIONS);
    let e = act::deliver(d, 2, DELETIONS);
    let f = act::checkpoint(e, 2, DELETIONS);
    let g = act::send(f, 1, 2);
    let h = act::deliver(g, 3, DELETIONS);
    let i = act::checkpoint(h, 2, DELETIONS);
    let j = act::checkpoint(i, 0, DELETIONS);
    act::checkpoint(j, 0, DELETIONS)
}

// Lists that the call accepts.
fn accepted(sheet: &mut Sheet, s: After) {
    show(sheet, s, 1, one(0, 2));
    show(sheet, s, 2, one(2, 2));
    show(sheet, s, 3, one(2, 1));
    show(sheet, s, 4, one(1, 1));
    show(sheet, s, 5, one(2, 0));
    show(sheet, s, 6, two(0, 2, 2, 1));
    show(sheet, s, 7, two(2, 2, 0, 2));
    show(sheet, s, 8, three(0, 2, 1, 1, 2, 0));
    show(sheet, s, 9, two(2, 0, 1, 0));
    show(sheet, s, 10, two(1, 1, 2, 1));
    show(sheet, s, 11, three(2, 1, 0, 2, 1, 1));
}

// Lists that it refuses, with 20, 19, 18 and 4.
fn refused(sheet: &mut Sheet, s: After) {
    show(sheet, s, 12, two(1, 1, 2, 2));
    show(sheet, s, 13, two(2, 2, 1, 1));
    show(sheet, s, 14, three(1, 0, 0, 2, 2, 1));
    show(sheet, s, 15, one(0, 1));
    show(sheet, s, 16, one(1, 2));
    show(sheet, s, 17, one(2, 65535));
    show(sheet, s, 18, three(1, 1, 2, 2, 0, 0));
    show(sheet, s, 19, none());
    show(sheet, s, 20, two(1, 1, 1, 1));
    show(sheet, s, 21, three(0, 0, 1, 1, 0, 0));
    show(sheet, s, 22, two(1, 0, 1, 1));
    show(sheet, s, 23, four(0, 2, 1, 1, 2, 1, 0, 2));
    show(sheet, s, 24, four(0, 2, 1, 1, 2, 1, 3, 0));
    show(sheet, s, 25, three(0, 0, 0, 0, 3, 0));
}

// A new run of n processes, and a line list of some length.
fn earliest_line(sheet: &mut Sheet, n: usize, length: usize)
    requires { length ≤ 16 }
{
    let start = act::start(n);
    let list = one(0, 0);
    let named = list.named;
    let mut line = [0u16; PROCESSES];
    let outcome = library_calls::through::earliest_among(
        start.run,
        named,
        list.length,
        &mut line[..length],
    );
    let answer = outcome.answer;
    let summary = Summary::from(answer);
    limits::with_list(sheet, b"earliestline", n, length, summary.number());
}

pub(crate) fn note_8(sheet: &mut Sheet) {
    say::title(sheet, b"note", 8);
    let s = shown();
    facts::state(sheet, s);
    accepted(sheet, s);
    refused(sheet, s);
    earliest_line(sheet, 1, 1);
    earliest_line(sheet, 1, 0);
    earliest_line(sheet, 2, 2);
    earliest_line(sheet, 2, 1);
    earliest_line(sheet, 16, 16);
    earliest_line(sheet, 16, 15);
}
