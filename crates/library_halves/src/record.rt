// Whether a record of a half is taken: 14, 4, 5 and 23, in this order.
ghost use Rattle.std.specs.Prelude.{◌≡◌, ◌⊎◌, ◌*◌, ◌≤◌};
ghost use Rattle.laws.specs.Basics.{List, Some, ℕ, length};
ghost use Rattle.model.specs.{Trace.fields, Trace.if_zero_of, Words.most_processes};
ghost use Rattle.theory_merges.specs.{Halves.HalfEvent, Halves.send_to, Halves.checkpoint_at, Merge.in_half_of, Merge.half_event_of, Merge.most_of_half};
ghost use Rattle.library_halves.specs.{Log.Logged, Taking.Judges, Taking.message_of};

use crate::log;
use log::Message;
use model::{Fields, Refusal};

// "4 bits of sender, then 21 bits of that sender's running count": how many such counts there are.
pub const COUNTS: u32 = 2097152;

// What a delivery or a loss of a message that was not sent would name.
const NO_MESSAGE: Message = Message {
    number: 0,
    receiver: 0,
};

// A half of a run of n processes. `set` has those of the first half; `side` is true where the first half is meant, false for the second: which half, and no test.
#[derive(Clone, Copy)]
pub struct Half {
    pub n: usize,
    pub set: u32,
    pub side: bool,
}

// Whether process p belongs to the half that is meant.
#[tactic(auto, using(crate::proofs::Records::half_is))]
fn in_half(half: Half, p: usize) -> bool
    ensures { result ≡ in_half_of half.set half.side p }
{
    let bit = admissions::above(half.set, p) % 2;
    (bit == 1) == half.side
}

// A checkpoint: 14, 4 and 23.
fn judge_checkpoint(half: Half, r: Fields) -> Result<u32, Refusal>
    requires { half.n ≤ most_processes }
    ensures { (l : List HalfEvent) → Judges half.n half.set half.side l (if_zero_of r.argument (checkpoint_at r.process)) result }
{
    let process = r.process;
    if r.argument != 0 {
        return Err(Refusal::MalformedRecord);
    }
    if half.n <= process {
        return Err(Refusal::NoSuchProcess);
    }
    if !in_half(half, process) {
        return Err(Refusal::HalvesMismatch);
    }
    Ok(process as u32 * trace::ARGUMENTS)
}

// A send: 4, 5 and 23.
fn judge_send(half: Half, r: Fields) -> Result<u32, Refusal>
    requires { half.n ≤ most_processes }
    ensures { (l : List HalfEvent) → Judges half.n half.set half.side l (Some (send_to r.process r.argument)) result }
{
    let process = r.process;
    let receiver = r.argument as usize;
    if half.n <= process || half.n <= receiver {
        return Err(Refusal::NoSuchProcess);
    }
    if process == receiver {
        return Err(Refusal::SenderIsReceiver);
    }
    if !in_half(half, process) {
        return Err(Refusal::HalvesMismatch);
    }
    Ok(trace::KIND + process as u32 * trace::ARGUMENTS + r.argument)
}

// A delivery, kind 2, or a loss, kind 3: 14, and 23 "for a receiver, outside that half".
fn judge_message(half: Half, r: Fields, log: &[u32]) -> Result<u32, Refusal>
    requires { (r.kind ≤ 3) × (length log.now ≤ 2 * most_of_half) }
    ensures { (r.kind ≡ 2) ⊎ (r.kind ≡ 3) → (l : List HalfEvent) → Logged l log.now → length log.now ≡ length l → Judges half.n half.set half.side l (if_zero_of r.process (message_of r.kind r.argument)) result }
{
    if r.process != 0 {
        return Err(Refusal::MalformedRecord);
    }
    let t = log::tally_all(log, r.argument / COUNTS, r.argument % COUNTS);
    let message = t.sent.unwrap_or(NO_MESSAGE);
    if !in_half(half, message.receiver as usize) {
        return Err(Refusal::HalvesMismatch);
    }
    Ok(r.kind * trace::KIND + message.number)
}

// A record of the half that is meant, as it is taken: its word in the merged trace, or why it is refused.
pub(crate) fn judge(half: Half, part: &[u8], log: &[u32]) -> Result<u32, Refusal>
    requires { (half.n ≤ most_processes) × (length part.now ≡ 4) × (length log.now ≤ 2 * most_of_half) }
    ensures { (l : List HalfEvent) → Logged l log.now → length log.now ≡ length l → Judges half.n half.set half.side l (half_event_of (fields part.now)) result }
{
    let r = trace::read_fields(part);
    // A half's record is no event of the library: its argument names a message otherwise.
    match r.kind {
        0 => judge_checkpoint(half, r),
        1 => judge_send(half, r),
        2 | 3 => judge_message(half, r, log),
        _ => Err(Refusal::MalformedRecord),
    }
}
