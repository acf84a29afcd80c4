// What a call answers where the buffer has no room for its record: its own refusal, else 21. "A refused call writes no byte", and the words and the lent lists keep every
// entry: so the call is made on a copy of the words, with lists of its own. A refusal looks at the length of a lent list alone, and 512 entries, or 16, are as good as more.
ghost use Rattle.std.specs.Prelude.{◌≡◌, ◌≤◌, Err};
ghost use Rattle.laws.specs.Basics.{List, ℕ, min, length};
ghost use Rattle.model.specs.declared.Refusal.TheVariants.{BufferTooShort};
ghost use Rattle.model.specs.Refusals.{checkpoint_refusal, send_refusal, deliver_refusal, lose_refusal, recover_refusal};
ghost use Rattle.whole_runs.specs.Outcomes.{judged};
ghost use Rattle.words.specs.Layout.{run_of};

use listing::Summary;
use model::{
    CheckpointAnswer, DELETIONS, DeliverAnswer, LoseAnswer, PROCESSES, RecoverAnswer, Refusal,
    SendAnswer,
};
use words::WORDS;

fn least(a: usize, b: usize) -> usize
    ensures { (result ≡ min a b) × (result ≤ b) }
{
    if a < b {
        return a;
    }
    b
}

// Words that are not as many as a state has stand for no sound state, and so do zeros.
fn copy_of(w: &[u16]) -> [u16; WORDS]
    ensures { run_of result ≡ run_of w.now }
{
    let mut copy = [0u16; WORDS];
    if w.len() != WORDS {
        return copy;
    }
    library_readers::copy_words(w, 0, WORDS, &mut copy);
    copy
}

pub fn checkpoint(w: &[u16], i: usize, size: usize) -> CheckpointAnswer
    ensures { (lent : List ℕ) → length lent ≡ size → result ≡ judged (checkpoint_refusal (run_of w.now) i lent) (λ x. Err x) (Err BufferTooShort) }
{
    let mut copy = copy_of(w);
    let mut deleted = [0u16; DELETIONS];
    let entries = least(size, DELETIONS);
    let answer = in_place::checkpoint::checkpoint(&mut copy, i, &mut deleted[..entries]);
    let summary = Summary::from(answer);
    let number = summary.number();
    if number == 0 {
        return Err(Refusal::BufferTooShort);
    }
    answer
}

pub fn send(w: &[u16], i: usize, j: usize) -> SendAnswer
    ensures { result ≡ judged (send_refusal (run_of w.now) i j) (λ x. Err x) (Err BufferTooShort) }
{
    let mut copy = copy_of(w);
    let answer = in_place::send::send(&mut copy, i, j);
    let summary = Summary::from(answer);
    let number = summary.number();
    if number == 0 {
        return Err(Refusal::BufferTooShort);
    }
    answer
}

pub fn deliver(w: &[u16], m: u32, size: usize) -> DeliverAnswer
    ensures { (lent : List ℕ) → length lent ≡ size → result ≡ judged (deliver_refusal (run_of w.now) m lent) (λ x. Err x) (Err BufferTooShort) }
{
    let mut copy = copy_of(w);
    let mut deleted = [0u16; DELETIONS];
    let entries = least(size, DELETIONS);
    let delivered = in_place::deliver::deliver(&mut copy, m, &mut deleted[..entries]);
    let answer = delivered.answer;
    let summary = Summary::from(answer);
    let number = summary.number();
    if number == 0 {
        return Err(Refusal::BufferTooShort);
    }
    answer
}

pub fn lose(w: &[u16], m: u32) -> LoseAnswer
    ensures { result ≡ judged (lose_refusal (run_of w.now) m) (λ x. Err x) (Err BufferTooShort) }
{
    let mut copy = copy_of(w);
    let answer = in_place::lose::lose(&mut copy, m);
    let summary = Summary::from(answer);
    let number = summary.number();
    if number == 0 {
        return Err(Refusal::BufferTooShort);
    }
    answer
}

pub fn recover(w: &[u16], failed: u32, size: usize, members: usize) -> RecoverAnswer
    ensures { (lent line : List ℕ) → length lent ≡ size → length line ≡ members → result ≡ judged (recover_refusal (run_of w.now) failed lent line) (λ x. Err x) (Err BufferTooShort) }
{
    let mut copy = copy_of(w);
    let mut deleted = [0u16; DELETIONS];
    let mut line = [0u16; PROCESSES];
    let entries = least(size, DELETIONS);
    let places = least(members, PROCESSES);
    let answer = in_place_recover::recover(
        &mut copy,
        failed,
        &mut deleted[..entries],
        &mut line[..places],
    );
    let summary = Summary::from(answer);
    let number = summary.number();
    if number == 0 {
        return Err(Refusal::BufferTooShort);
    }
    answer
}
