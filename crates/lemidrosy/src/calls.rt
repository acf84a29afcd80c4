// The calls in place: each works on the 6,464 words that the caller lends, which hold a state (`words`, specs/Layout). Words that stand for no sound state are refused
// with number 2. A refused call leaves every word and every entry of its lists as it was; a refused start makes the words zero.
ghost use Rattle.std.specs.Prelude.{◌≡◌, Err, Ok};
ghost use Rattle.laws.specs.Basics.{length};
ghost use Rattle.model.specs.Sound.{sound};
ghost use Rattle.whole_runs.specs.Outcomes.{checkpoint_outcome, send_outcome, deliver_outcome, lose_outcome, line_outcome, recover_outcome};
ghost use Rattle.whole_runs.specs.{WholeRuns.LinePromise, WholeRuns.StartPromise, WholeRuns.StatePromise, WholeRuns.EarliestPromise, Earliest.earliest_outcome};
ghost use Rattle.whole_runs.specs.{Clean.CleanPromise, Sweep.EmptyLinePromise, Sweep.SweepPromise};
ghost use Rattle.listing.specs.answers.Codes.{start_code, checkpoint_code, send_code, deliver_code, lose_code, line_code, recover_code};
ghost use Rattle.words.specs.{Clean.Clean, Layout.run_of, Layout.state_size};
ghost use Rattle.words_line.specs.Through.{named_in};
ghost use Rattle.in_place.specs.Starting.{start_outcome_in, start_words};
ghost use Rattle.lemidrosy.specs.Changes.{Changes};
ghost use Rattle.whole_runs.specs.Calls as made;

// Whether the words stand for a sound state.
#[unsafe(no_mangle)]
pub extern "C" fn lemidrosy_is_sound(words: &[u16]) -> bool
    ensures { result ≡ sound (run_of words.now) }
{
    words_sound::is_sound(words)
}

// A run of n processes with the block count of each begins in the words.
#[unsafe(no_mangle)]
pub extern "C" fn lemidrosy_start(words: &mut [u16], n: usize, block_counts: &[u32]) -> u64
    ensures fact { let o = start_outcome_in (length words.old) n block_counts.now in
        (result ≡ start_code o.answer) × (run_of words.new ≡ o.run)
        × (o.answer ≡ Ok tt → StartPromise n block_counts.now (run_of words.new)) }
    ensures words_after { words.new ≡ start_words words.old n block_counts.now }
    ensures clean { length words.old ≡ state_size → Clean words.new }
{
    let answer = in_place::start::start(words, n, block_counts);
    listing::answers::of(answer, 0)
}

// A process takes a checkpoint. The value is its index; what is deleted goes to the front of the lent list, as pairs of a process and an index.
#[unsafe(no_mangle)]
pub extern "C" fn lemidrosy_checkpoint(
    words: &mut [u16],
    process: usize,
    deleted: &mut [u16],
) -> u64
    ensures fact { let o = checkpoint_outcome (run_of words.old) process deleted.old in
        (result ≡ checkpoint_code o.answer) × (deleted.new ≡ o.deleted) × Changes Err o words.old words.new }
    ensures state_promise { StatePromise (run_of words.old) (made.checkpoint process deleted.old) (run_of words.new) }
{
    let answer = in_place::checkpoint::checkpoint(words, process, deleted);
    listing::answers::of(answer, 0)
}

// A process sends a message to another. The value is the message's number.
#[unsafe(no_mangle)]
pub extern "C" fn lemidrosy_send(words: &mut [u16], sender: usize, receiver: usize) -> u64
    ensures fact { let o = send_outcome (run_of words.old) sender receiver in
        (result ≡ send_code o.answer) × Changes Err o words.old words.new }
    ensures state_promise { StatePromise (run_of words.old) (made.send sender receiver) (run_of words.new) }
{
    let answer = in_place::send::send(words, sender, receiver);
    listing::answers::of(answer, 0)
}

// A message reaches its receiver. The value is the index of the checkpoint that it forces, if it forces one; what is deleted goes to the front of the lent list, as
// pairs of a process and an index. The set has the entries of the receiver's vector that rose.
#[unsafe(no_mangle)]
pub extern "C" fn lemidrosy_deliver(words: &mut [u16], message: u32, deleted: &mut [u16]) -> u64
    ensures fact { let o = deliver_outcome (run_of words.old) message deleted.old in
        (result ≡ deliver_code o.answer o.rose) × (deleted.new ≡ o.deleted)
        × Changes Err o words.old words.new }
    ensures state_promise { StatePromise (run_of words.old) (made.deliver message deleted.old) (run_of words.new) }
{
    let delivered = in_place::deliver::deliver(words, message, deleted);
    let answer = delivered.answer;
    listing::answers::of(answer, delivered.rose)
}

// A message is lost.
#[unsafe(no_mangle)]
pub extern "C" fn lemidrosy_lose(words: &mut [u16], message: u32) -> u64
    ensures fact { let o = lose_outcome (run_of words.old) message in
        (result ≡ lose_code o.answer) × Changes Err o words.old words.new }
    ensures state_promise { StatePromise (run_of words.old) (made.lose message) (run_of words.new) }
{
    let answer = in_place::lose::lose(words, message);
    listing::answers::of(answer, 0)
}

// The line for a failed set, bit p of which stands for process p: its n indexes go to the front of the lent list. An empty set is a sweep's.
#[unsafe(no_mangle)]
pub extern "C" fn lemidrosy_line(words: &[u16], failed: u32, line: &mut [u16]) -> u64
    ensures fact { let o = line_outcome (run_of words.now) failed line.old in
        (result ≡ line_code o.answer) × (line.new ≡ o.line)
        × EmptyLinePromise (run_of words.now) failed line.old o.answer line.new }
    ensures line_promise { LinePromise (run_of words.now) failed }
{
    let answer = in_place::line::line(words, failed, line);
    listing::answers::of(answer, 0)
}

// Every process goes back to the line for a failed set, bit p of which stands for process p: its n indexes go to the front of the one list, what is deleted to the front of the
// other, as pairs of a process and an index. The value is how many rolled back. An empty set is a sweep: nobody rolls back.
#[unsafe(no_mangle)]
pub extern "C" fn lemidrosy_recover(
    words: &mut [u16],
    failed: u32,
    deleted: &mut [u16],
    line: &mut [u16],
) -> u64
    ensures fact { let o = recover_outcome (run_of words.old) failed deleted.old line.old in
        (result ≡ recover_code o.answer) × (deleted.new ≡ o.deleted) × (line.new ≡ o.line)
        × Changes Err o words.old words.new
        × SweepPromise (run_of words.old) failed deleted.old line.old o.answer line.new (run_of words.new) }
    ensures line_promise { LinePromise (run_of words.old) failed }
    ensures state_promise { StatePromise (run_of words.old) (made.recover failed deleted.old line.old) (run_of words.new) }
    ensures clean_promise { CleanPromise (run_of words.old) failed deleted.old line.old (run_of words.new) }
{
    let answer = in_place_recover::recover(words, failed, deleted, line);
    listing::answers::of(answer, 0)
}

// The earliest consistent line through the named checkpoints, pairs of a process and an index: its n indexes go to the front of the lent list.
#[unsafe(no_mangle)]
pub extern "C" fn lemidrosy_earliest(words: &[u16], named: &[u32], line: &mut [u16]) -> u64
    ensures fact { let o = earliest_outcome (run_of words.now) (named_in named.now) line.old in
        (result ≡ line_code o.answer) × (line.new ≡ o.line) }
    ensures earliest_promise { EarliestPromise (run_of words.now) (named_in named.now) line.old }
{
    let answer = in_place::through::earliest(words, named, line);
    listing::answers::of(answer, 0)
}
