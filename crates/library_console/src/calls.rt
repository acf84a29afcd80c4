// The library's calls on lent words, each with its caller.
ghost use Rattle.std.specs.Prelude.{◌≡◌, Err};
ghost use Rattle.laws.specs.Basics.{length};
ghost use Rattle.model.specs.declared.Refusal.{Refusal};
ghost use Rattle.words.specs.{Clean.Clean, Layout.run_of, Layout.state_size};
ghost use Rattle.words_line.specs.Through.{named_in};
ghost use Rattle.in_place.specs.Left.{Leaves};
ghost use Rattle.library_console.specs.Asked.{start_as, start_words_as, checkpoint_as, send_as, deliver_as, lose_as, recover_as, earliest_as};

use crate::denied;
use in_place::deliver::Delivered;
use model::{
    CheckpointAnswer, DeliverAnswer, LineAnswer, LoseAnswer, RecoverAnswer, Refusal, SendAnswer,
    StartAnswer,
};
use theory_roles::Operation;

// A run of n processes with the block count of each: for an operator alone. A start that is denied leaves the words as they were.
pub fn start(role: u32, owned: u32, w: &mut [u16], n: usize, block_counts: &[u32]) -> StartAnswer
    ensures value { result ≡ (start_as role owned w.old n block_counts.now).answer }
    ensures w_after { run_of w.new ≡ (start_as role owned w.old n block_counts.now).run }
    ensures w_after_2 { w.new ≡ start_words_as role owned w.old n block_counts.now }
    ensures clean { length w.old ≡ state_size → Clean w.old → Clean w.new }
{
    let denied = denied::is_denied(role, Operation::Start);
    if denied {
        return Err(Refusal::Denied);
    }
    in_place::start::start(w, n, block_counts)
}

// Process i takes a checkpoint. What is deleted goes to the front of the lent list.
pub fn checkpoint(
    role: u32,
    owned: u32,
    w: &mut [u16],
    i: usize,
    deleted: &mut [u16],
) -> CheckpointAnswer
    ensures w_after { run_of w.new ≡ (checkpoint_as role owned (run_of w.old) i deleted.old).run }
    ensures value { result ≡ (checkpoint_as role owned (run_of w.old) i deleted.old).answer }
    ensures deleted_after { deleted.new ≡ (checkpoint_as role owned (run_of w.old) i deleted.old).deleted }
    ensures w_unchanged { (why : Refusal) → result ≡ Err why → w.new ≡ w.old }
    ensures leaves { Leaves w.old w.new }
{
    let denied = denied::is_process_denied(role, owned, Operation::Checkpoint, w, i);
    if denied {
        return Err(Refusal::Denied);
    }
    in_place::checkpoint::checkpoint(w, i, deleted)
}

// Process i sends a message to process j, which may be anyone's.
pub fn send(role: u32, owned: u32, w: &mut [u16], i: usize, j: usize) -> SendAnswer
    ensures w_after { run_of w.new ≡ (send_as role owned (run_of w.old) i j).run }
    ensures value { result ≡ (send_as role owned (run_of w.old) i j).answer }
    ensures w_unchanged { (why : Refusal) → result ≡ Err why → w.new ≡ w.old }
    ensures leaves { Leaves w.old w.new }
{
    let denied = denied::is_process_denied(role, owned, Operation::Send, w, i);
    if denied {
        return Err(Refusal::Denied);
    }
    in_place::send::send(w, i, j)
}

// Message m reaches its receiver. What is deleted goes to the front of the lent list; `rose` is the set of the receiver's entries that rose.
pub fn deliver(role: u32, owned: u32, w: &mut [u16], m: u32, deleted: &mut [u16]) -> Delivered
    ensures w_after { run_of w.new ≡ (deliver_as role owned (run_of w.old) m deleted.old).run }
    ensures answer_value { result.answer ≡ (deliver_as role owned (run_of w.old) m deleted.old).answer }
    ensures rose_value { result.rose ≡ (deliver_as role owned (run_of w.old) m deleted.old).rose }
    ensures deleted_after { deleted.new ≡ (deliver_as role owned (run_of w.old) m deleted.old).deleted }
    ensures w_unchanged { (why : Refusal) → result.answer ≡ Err why → w.new ≡ w.old }
    ensures leaves { Leaves w.old w.new }
{
    let denied = denied::is_message_denied(role, owned, Operation::Deliver, w, m);
    if denied {
        let answer = Err(Refusal::Denied);
        return Delivered { answer, rose: 0 };
    }
    in_place::deliver::deliver(w, m, deleted)
}

// Message m is lost.
pub fn lose(role: u32, owned: u32, w: &mut [u16], m: u32) -> LoseAnswer
    ensures w_after { run_of w.new ≡ (lose_as role owned (run_of w.old) m).run }
    ensures value { result ≡ (lose_as role owned (run_of w.old) m).answer }
    ensures w_unchanged { (why : Refusal) → result ≡ Err why → w.new ≡ w.old }
    ensures leaves { Leaves w.old w.new }
{
    let denied = denied::is_message_denied(role, owned, Operation::Lose, w, m);
    if denied {
        return Err(Refusal::Denied);
    }
    in_place::lose::lose(w, m)
}

// Every process goes back to the line for a failed set, or the run is swept: for an operator alone.
pub fn recover(
    role: u32,
    owned: u32,
    w: &mut [u16],
    failed: u32,
    deleted: &mut [u16],
    line: &mut [u16],
) -> RecoverAnswer
    ensures w_after { run_of w.new ≡ (recover_as role owned (run_of w.old) failed deleted.old line.old).run }
    ensures value { result ≡ (recover_as role owned (run_of w.old) failed deleted.old line.old).answer }
    ensures deleted_after { deleted.new ≡ (recover_as role owned (run_of w.old) failed deleted.old line.old).deleted }
    ensures line_after { line.new ≡ (recover_as role owned (run_of w.old) failed deleted.old line.old).line }
    ensures w_unchanged { (why : Refusal) → result ≡ Err why → w.new ≡ w.old }
    ensures leaves { Leaves w.old w.new }
{
    let denied = denied::is_denied(role, Operation::Recover);
    if denied {
        return Err(Refusal::Denied);
    }
    in_place_recover::recover(w, failed, deleted, line)
}

// The earliest consistent line through the named checkpoints, pairs of a process and an index: for an operator alone.
pub fn earliest(role: u32, owned: u32, w: &[u16], named: &[u32], line: &mut [u16]) -> LineAnswer
    ensures w_value { run_of w.now ≡ (earliest_as role owned (run_of w.now) (named_in named.now) line.old).run }
    ensures value { result ≡ (earliest_as role owned (run_of w.now) (named_in named.now) line.old).answer }
    ensures line_after { line.new ≡ (earliest_as role owned (run_of w.now) (named_in named.now) line.old).line }
{
    let denied = denied::is_denied(role, Operation::Earliest);
    if denied {
        return Err(Refusal::Denied);
    }
    in_place::through::earliest(w, named, line)
}
