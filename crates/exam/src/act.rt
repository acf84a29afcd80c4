// Each call of the library on the state after the call before it, with lists of a given length that hold zeros. What comes back is the state and
// the number of the answer: 0 if the call is accepted, else the refusal number. A deletion list of 512 entries and a line list of 16 are enough for every run.
ghost use Rattle.std.specs.Prelude.{◌≡◌, ◌≤◌};
ghost use Rattle.laws.specs.Basics.{take, replicate};
ghost use Rattle.model.specs.Words.{ones, most_deletions, most_processes};
ghost use Rattle.whole_runs.specs.Outcomes.{start_outcome, checkpoint_outcome, send_outcome, deliver_outcome, recover_outcome, start_report, checkpoint_report, send_report, deliver_report, recover_report};

use listing::Summary;
use model::{DELETIONS, Disk, PROCESSES, Run};

// The state after a call, and the number of its answer.
#[derive(Clone, Copy)]
pub struct After {
    pub run: Run,
    pub refused: u8,
}

// A start with these block counts.
pub(crate) fn start_with(n: usize, block_counts: [u32; PROCESSES]) -> After
    ensures { (result.run ≡ (start_outcome n block_counts).run) × (result.refused ≡ (start_report (start_outcome n block_counts).answer).refused) }
{
    let outcome = library_calls::start::start(n, block_counts);
    let run = outcome.run;
    let answer = outcome.answer;
    let summary = Summary::from(answer);
    let refused = summary.number();
    After { run, refused }
}

// A start with a block count of 1 for every process.
pub(crate) fn start(n: usize) -> After
    ensures { (result.run ≡ (start_outcome n ones).run) × (result.refused ≡ (start_report (start_outcome n ones).answer).refused) }
{
    start_with(n, [1; PROCESSES])
}

// The same state with other blocks written and deleted, put in by hand: a state that no call need have returned.
pub(crate) fn forged(before: After, written: u64, deleted: u64) -> After {
    let mut run = before.run;
    let disk = Disk { written, deleted };
    run.disk = disk;
    After { run, refused: 0 }
}

pub(crate) fn checkpoint(before: After, i: usize, length: usize) -> After
    requires { length ≤ most_deletions }
    ensures { (result.run ≡ (checkpoint_outcome before.run i (take length (replicate most_deletions 0))).run) × (result.refused ≡ (checkpoint_report (checkpoint_outcome before.run i (take length (replicate most_deletions 0))).answer).refused) }
{
    let mut deleted = [0u16; DELETIONS];
    let outcome = library_calls::checkpoint::checkpoint(before.run, i, &mut deleted[..length]);
    let run = outcome.run;
    let answer = outcome.answer;
    let summary = Summary::from(answer);
    let refused = summary.number();
    After { run, refused }
}

pub(crate) fn send(before: After, i: usize, j: usize) -> After
    ensures { (result.run ≡ (send_outcome before.run i j).run) × (result.refused ≡ (send_report (send_outcome before.run i j).answer).refused) }
{
    let outcome = library_calls::send::send(before.run, i, j);
    let run = outcome.run;
    let answer = outcome.answer;
    let summary = Summary::from(answer);
    let refused = summary.number();
    After { run, refused }
}

pub(crate) fn deliver(before: After, m: u32, length: usize) -> After
    requires { length ≤ most_deletions }
    ensures { (result.run ≡ (deliver_outcome before.run m (take length (replicate most_deletions 0))).run) × (result.refused ≡ (deliver_report (deliver_outcome before.run m (take length (replicate most_deletions 0))).answer).refused) }
{
    let mut deleted = [0u16; DELETIONS];
    let outcome = library_calls::deliver::deliver(before.run, m, &mut deleted[..length]);
    let run = outcome.run;
    let answer = outcome.answer;
    let summary = Summary::from(answer);
    let refused = summary.number();
    After { run, refused }
}

pub(crate) fn recover(before: After, failed: u16, length: usize, members: usize) -> After
    requires length_le_most_deletions { length ≤ most_deletions }
    requires members_le_most_processes { members ≤ most_processes }
    ensures { (result.run ≡ (recover_outcome before.run failed (take length (replicate most_deletions 0)) (take members (replicate most_processes 0))).run) × (result.refused ≡ (recover_report (recover_outcome before.run failed (take length (replicate most_deletions 0)) (take members (replicate most_processes 0))).answer).refused) }
{
    let mut deleted = [0u16; DELETIONS];
    let mut line = [0u16; PROCESSES];
    let outcome = library_calls::recover::recover(
        before.run,
        failed,
        &mut deleted[..length],
        &mut line[..members],
    );
    let run = outcome.run;
    let answer = outcome.answer;
    let summary = Summary::from(answer);
    let refused = summary.number();
    After { run, refused }
}

// That many checkpoints of process i, one after the other.
pub(crate) fn checkpoints(before: After, i: usize, times: usize) -> After {
    let mut s = before;
    for k in 0..times {
        s = checkpoint(s, i, DELETIONS);
    }
    s
}
