// What is printed of a state: vector, pins and kept checkpoints of each process with their causes and block counts, the blocks written and deleted, and the line for
// every failed set that the run has; of a delivery; and of a recovery. Nothing is assumed of a state but that its rows have 16 places.
ghost use Rattle.std.specs.Prelude.{◌≤◌, ◌<◌};
ghost use Rattle.model.specs.Words.{most_processes, kept_places};

use crate::act::After;
use crate::say;
use crate::say::Sheet;
use listing::Summary;
use model::{
    Checkpoint, DELETIONS, Disk, Interval, Kept, LineAnswer, PROCESSES, Pin, Pins, RecoverAnswer,
    Recovery, Run, Vectors,
};

// A count, where there are places for that many: nothing is printed past them.
fn within(places: usize, count: usize) -> usize
    ensures { result ≤ places }
{
    if count < places { count } else { places }
}

fn entries(sheet: &mut Sheet, row: [Interval; PROCESSES], n: usize)
    requires { n ≤ most_processes }
{
    for f in 0..n {
        let e = row[f];
        say::value(sheet, e.0 as u64);
    }
    say::end(sheet);
}

fn vector(sheet: &mut Sheet, all: Vectors, p: usize, n: usize)
    requires p_lt_most_processes { p < most_processes }
    requires n_le_most_processes { n ≤ most_processes }
{
    let rows = words::rows::squares::vector_rows(all);
    say::heading(sheet, b"vector", p as u64);
    entries(sheet, rows[p], n);
}

fn pin(sheet: &mut Sheet, at: Pin) {
    match at {
        None => say::text(sheet, b" -"),
        Some(index) => say::value(sheet, index.0 as u64),
    }
}

fn pin_row(sheet: &mut Sheet, row: [Pin; PROCESSES], n: usize)
    requires { n ≤ most_processes }
{
    for f in 0..n {
        let at = row[f];
        pin(sheet, at);
    }
    say::end(sheet);
}

fn pins(sheet: &mut Sheet, all: Pins, p: usize, n: usize)
    requires p_lt_most_processes { p < most_processes }
    requires n_le_most_processes { n ≤ most_processes }
{
    let rows = words::rows::squares::pin_rows(all);
    say::heading(sheet, b"pins", p as u64);
    pin_row(sheet, rows[p], n);
}

// What a line tells of each kept checkpoint.
#[derive(Clone, Copy)]
pub enum Column {
    Index,
    Cause,
    Blocks,
}

fn told(c: Checkpoint, column: Column) -> u64 {
    match column {
        Column::Index => {
            let index = c.index;
            index.0 as u64
        }
        Column::Cause => c.cause as u64,
        Column::Blocks => c.blocks as u64,
    }
}

fn stored(sheet: &mut Sheet, row: [Checkpoint; PROCESSES], kept_count: usize, column: Column)
    requires { kept_count ≤ most_processes }
{
    for k in 0..kept_count {
        let c = row[k];
        say::value(sheet, told(c, column));
    }
    say::end(sheet);
}

// What process p keeps: indexes, causes and block counts.
fn kept(sheet: &mut Sheet, all: Kept, p: usize, kept_count: usize)
    requires p_lt_most_processes { p < most_processes }
    requires kept_count_le_most_processes { kept_count ≤ most_processes }
{
    let rows = words::rows::squares::kept_rows(all);
    say::heading(sheet, b"kept", p as u64);
    stored(sheet, rows[p], kept_count, Column::Index);
    say::heading(sheet, b"causes", p as u64);
    stored(sheet, rows[p], kept_count, Column::Cause);
    say::heading(sheet, b"counts", p as u64);
    stored(sheet, rows[p], kept_count, Column::Blocks);
}

// The five lines of process p.
fn process(sheet: &mut Sheet, s: Run, p: usize)
    requires { p < most_processes }
{
    let n = within(PROCESSES, s.count);
    let kept_count = s.kept_count;
    vector(sheet, s.vectors, p, n);
    pins(sheet, s.pins, p, n);
    kept(sheet, s.kept, p, within(PROCESSES, kept_count[p]));
}

// Blocks written and blocks deleted.
fn blocks(sheet: &mut Sheet, disk: Disk) {
    say::text(sheet, b"blocks:");
    say::value(sheet, disk.written);
    say::value(sheet, disk.deleted);
    say::end(sheet);
}

fn processes(sheet: &mut Sheet, s: Run) {
    let n = within(PROCESSES, s.count);
    for p in 0..n {
        process(sheet, s, p);
    }
}

pub(crate) fn wide(x: u16) -> u64 {
    x as u64
}

// The indexes of a line, as a line or recover call wrote them.
fn indexes(sheet: &mut Sheet, words: &[u8], failed: u16, line: &[u16; PROCESSES], n: usize)
    requires { n ≤ most_processes }
{
    say::heading(sheet, words, failed as u64);
    for p in 0..n {
        say::value(sheet, wide(line[p]));
    }
    say::end(sheet);
}

// The line for one failed set, and whether the run has this set.
fn line(sheet: &mut Sheet, s: Run, failed: u16) -> bool {
    let n = within(PROCESSES, s.count);
    let mut line = [0u16; PROCESSES];
    let outcome = library_calls::line::line(s, failed, &mut line);
    let answer = outcome.answer;
    match answer {
        Err(_) => false,
        Ok(()) => {
            indexes(sheet, b"line", failed, &line, n);
            true
        }
    }
}

// The failed sets of a run are the numbers from 0, that of the empty set, up to the first that is refused, for a bit at the count or above.
pub(crate) fn lines(sheet: &mut Sheet, s: Run) {
    let mut failed: u16 = 0;
    while failed < 65535 && line(sheet, s, failed) {
        failed += 1;
    }
}

pub(crate) fn state(sheet: &mut Sheet, after: After) {
    let s = after.run;
    processes(sheet, s);
    blocks(sheet, s.disk);
    lines(sheet, s);
}

// The facts of the disks: what each process keeps, and the blocks written and deleted.
pub(crate) fn disks(sheet: &mut Sheet, after: After) {
    let s = after.run;
    let n = within(PROCESSES, s.count);
    let kept_count = s.kept_count;
    for p in 0..n {
        kept(sheet, s.kept, p, within(PROCESSES, kept_count[p]));
    }
    blocks(sheet, s.disk);
}

// A delivery with the number of its answer and the set of the entries that rose, and the state after it.
pub(crate) fn deliver(sheet: &mut Sheet, before: After, m: u32) -> After {
    let mut deleted = [0u16; DELETIONS];
    let outcome = library_calls::deliver::deliver(before.run, m, &mut deleted);
    let run = outcome.run;
    let answer = outcome.answer;
    let summary = Summary::from(answer);
    let refused = summary.number();
    say::fact(sheet, b"deliver", m as u64, refused as u64);
    say::fact(sheet, b"risen", m as u64, outcome.rose as u64);
    After { run, refused }
}

// A deletion, as process:index.
fn pair(sheet: &mut Sheet, process: u16, index: u16) {
    say::value(sheet, process as u64);
    say::text(sheet, b":");
    say::number(sheet, index as u64);
}

fn pairs(sheet: &mut Sheet, deleted: &[u16; DELETIONS], count: usize)
    requires { count ≤ kept_places }
{
    for k in 0..count {
        pair(sheet, deleted[2 * k], deleted[2 * k + 1]);
    }
}

// How many processes rolled back, how many deletions there were, and each of them.
fn recovery(sheet: &mut Sheet, failed: u16, answer: RecoverAnswer, deleted: &[u16; DELETIONS]) {
    say::heading(sheet, b"recover", failed as u64);
    match answer {
        Err(_) => {}
        Ok(
            Recovery {
                rolled_back: rolled,
                deleted: count,
            },
        ) => {
            say::value(sheet, rolled as u64);
            say::value(sheet, count as u64);
            pairs(sheet, deleted, within(256, count));
        }
    }
    say::end(sheet);
}

// A recovery with what it wrote and answered, and the state after it.
pub(crate) fn recover(sheet: &mut Sheet, before: After, failed: u16) -> After {
    let s = before.run;
    let n = within(PROCESSES, s.count);
    let mut deleted = [0u16; DELETIONS];
    let mut line = [0u16; PROCESSES];
    let outcome = library_calls::recover::recover(s, failed, &mut deleted, &mut line);
    let run = outcome.run;
    let answer = outcome.answer;
    indexes(sheet, b"written", failed, &line, n);
    recovery(sheet, failed, answer, &deleted);
    let summary = Summary::from(answer);
    let refused = summary.number();
    After { run, refused }
}
