// The cases of document 02, Note 5: a run with block counts of its own, step by step; and the limits of counts, of the sums and of the blocks written. Each line of
// the limits says 0 where the call is accepted, else the refusal number.
ghost use Rattle.std.specs.Prelude.{◌≤◌, ◌<◌};
ghost use Rattle.model.specs.Words.{most_processes};

use crate::act::After;
use crate::say::Sheet;
use crate::{act, facts, say};
use model::{DELETIONS, PROCESSES};

fn step(sheet: &mut Sheet, number: u64, after: After) -> After {
    say::title(sheet, b"step", number);
    facts::disks(sheet, after);
    after
}

// Two processes with block counts 3 and 5; those of no process are 0. Process 1 stores a forced checkpoint, rolls back past a later one, and stores it again.
pub(crate) fn disk_1(sheet: &mut Sheet) {
    say::title(sheet, b"disk", 1);
    let mut block_counts = [0u32; PROCESSES];
    block_counts[0] = 3;
    block_counts[1] = 5;
    let start = step(sheet, 0, act::start_with(2, block_counts));
    let first = step(sheet, 1, act::send(start, 1, 0));
    let second = step(sheet, 2, act::send(first, 0, 1));
    let third = step(sheet, 3, act::deliver(second, 2, DELETIONS));
    let fourth = step(sheet, 4, act::checkpoint(third, 1, DELETIONS));
    let fifth = step(sheet, 5, act::recover(fourth, 1, DELETIONS, PROCESSES));
    let sixth = step(sheet, 6, act::checkpoint(fifth, 1, DELETIONS));
    let seventh = step(sheet, 7, act::deliver(sixth, 1, DELETIONS));
    let eighth = step(sheet, 8, act::checkpoint(seventh, 0, DELETIONS));
    let ninth = step(sheet, 9, act::recover(eighth, 0, DELETIONS, PROCESSES));
    facts::lines(sheet, ninth.run);
}

// A start of n processes in which p has this block count and all others have 1.
fn count(sheet: &mut Sheet, n: usize, p: usize, blocks: u32)
    requires { p < most_processes }
{
    let mut block_counts = [1u32; PROCESSES];
    block_counts[p] = blocks;
    let done = act::start_with(n, block_counts);
    say::text(sheet, b"count");
    say::value(sheet, n as u64);
    say::value(sheet, p as u64);
    say::value(sheet, blocks as u64);
    say::text(sheet, b":");
    say::value(sheet, done.refused as u64);
    say::end(sheet);
}

fn counts(sheet: &mut Sheet, n: usize, p: usize)
    requires { p < most_processes }
{
    count(sheet, n, p, 0);
    count(sheet, n, p, 65535);
    count(sheet, n, p, 65536);
}

// 1 comes before 15.
fn outside(sheet: &mut Sheet, n: usize) {
    let done = act::start_with(n, [0; PROCESSES]);
    say::fact(sheet, b"outside", n as u64, done.refused as u64);
}

// Two processes with block counts 1 and 65,535.
fn two() -> After {
    let mut block_counts = [1u32; PROCESSES];
    block_counts[1] = 65535;
    act::start_with(2, block_counts)
}

// A checkpoint of process 0 where that many blocks are written and deleted: the state is sound exactly if the sum is right and within the bound.
fn sum(sheet: &mut Sheet, number: u64, written: u64, deleted: u64) {
    let start = two();
    let set = act::forged(start, written, deleted);
    let done = act::checkpoint(set, 0, DELETIONS);
    say::fact(sheet, b"sum", number, done.refused as u64);
}

// The fifth and the ninth are right only if a sum wraps around.
fn sums(sheet: &mut Sheet) {
    sum(sheet, 1, 65536, 0);
    sum(sheet, 2, 65537, 1);
    sum(sheet, 3, 65537, 0);
    sum(sheet, 4, 65536, 1);
    sum(sheet, 5, 65535, 18446744073709551615);
    sum(sheet, 6, 999999999999999, 999999999934463);
    sum(sheet, 7, 1000000000000000, 999999999934464);
    sum(sheet, 8, 1000000000000001, 999999999934465);
    sum(sheet, 9, 0, 18446744073709486080);
}

// A checkpoint of process 1, and a delivery to it that forces one, where that many blocks are left below the bound.
fn near(sheet: &mut Sheet, left: u64)
    requires { left ≤ 65535 }
{
    let start = two();
    let first = act::send(start, 1, 0);
    let second = act::send(first, 0, 1);
    let written = 1000000000000000 - left;
    let set = act::forged(second, written, written - 65536);
    let basic = act::checkpoint(set, 1, DELETIONS);
    say::fact(sheet, b"basic", left, basic.refused as u64);
    let forced = act::deliver(set, 2, DELETIONS);
    say::fact(sheet, b"forced", left, forced.refused as u64);
}

// With no block left, a delivery that stores no checkpoint, a sweep and a recovery are accepted.
fn full(sheet: &mut Sheet) {
    let start = two();
    let sent = act::send(start, 0, 1);
    let set = act::forged(sent, 1000000000000000, 999999999934464);
    let unforced = act::deliver(set, 1, DELETIONS);
    say::answer(sheet, b"unforced 0", unforced.refused);
    let swept = act::recover(set, 0, DELETIONS, PROCESSES);
    say::answer(sheet, b"recovered 0", swept.refused);
    let recovered = act::recover(set, 1, DELETIONS, PROCESSES);
    say::answer(sheet, b"recovered 1", recovered.refused);
}

// A checkpoint with no block left, at this own entry: 11 comes before 16.
fn own(sheet: &mut Sheet, entry: u64, times: usize) {
    let start = act::start(1);
    let high = act::checkpoints(start, 0, times);
    let set = act::forged(high, 1000000000000000, 999999999999999);
    let done = act::checkpoint(set, 0, DELETIONS);
    say::fact(sheet, b"own", entry, done.refused as u64);
}

pub(crate) fn disk_2(sheet: &mut Sheet) {
    say::title(sheet, b"disk", 2);
    counts(sheet, 1, 0);
    counts(sheet, 1, 1);
    counts(sheet, 2, 1);
    counts(sheet, 2, 2);
    counts(sheet, 16, 15);
    outside(sheet, 0);
    outside(sheet, 17);
    sums(sheet);
    near(sheet, 65535);
    near(sheet, 65534);
    full(sheet);
    own(sheet, 65534, 65533);
    own(sheet, 65535, 65534);
}
