// The merge of two halves of one run (document 02, Note 12). A record that is taken goes to a log, as its word in the merged trace, and the bytes are
// written once all records are taken: so a merge that is refused has written nothing. The log also tells which messages were sent.

#![tactic(auto)]

// log.rt: the words of the records taken
mod log;

// record.rt: whether a record is taken
mod record;

// taking.rt: which record is next, and all of them
mod taking;

// both.rt: what is judged before any record
mod both;

ghost use Rattle.std.specs.Prelude.{◌≡◌};
ghost use Rattle.theory_merges.specs.{Halves.OrdersAgree, Merge.merge_outcome, Merge.MergePromise};

use model::MergeAnswer;

// "17": "more than 4,096 records" of a half (most_of_half in the specs of theory_merges); the log has room for both.
pub const MOST_OF_HALF: usize = 4096;

const LOG: usize = 2 * MOST_OF_HALF;

// The merged trace stands at the front of `res`, and the rest of it is as it was; with a refusal all of it is. Bit p of `set` says that process p
// belongs to the first half; a set that 16 bits do not hold has a bit at n or above in every run. Both halves' orders are kept, a replay of it is
// the run of the merged calls, and any other order whose records are all accepted ends the same. No limit of a run is judged: the rule can put 65 messages
// under way, and a replay of what it writes then says 9.
#[tactic(auto, using(theory_merges::proofs::Replaying::merge_promise, theory_merges::proofs::Orders::orders_agree))]
pub fn merge<'a>(first: &'a [u8], second: &'a [u8], set: u32, res: &mut [u8]) -> MergeAnswer
    ensures value { result ≡ (merge_outcome first.now second.now set res.old).answer }
    ensures res_after { res.new ≡ (merge_outcome first.now second.now set res.old).buffer }
    ensures merge_promise { MergePromise first.now second.now set res.old × OrdersAgree }
{
    both::judge_halves(first, second, set, res.len())?;
    let mut log = [0; LOG];
    taking::take_all(first, second, both::count_of(first), set, &mut log)?;
    let count = both::how_many(first) + both::how_many(second);
    res[0] = first[0];
    log::write_all(&log[..count], res);
    Ok(1 + 4 * count)
}
