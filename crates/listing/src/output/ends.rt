// The ends of a trace: what is left over after its last whole record, and a trace of no bytes.
ghost use Rattle.std.specs.Prelude.{◌≤◌, ◌<◌};
ghost use Rattle.laws.specs.Basics.{Bool, [], length};
ghost use Rattle.whole_runs.specs.Listing.{records, listing};
ghost use Rattle.listing.specs.{Lines.longest_line, Printed.Printed};
ghost use Rattle.model.specs.declared.Run as model-run;

use crate::output::line;
use model::Refusal;
use whole_runs::MOST_RECORDS;

// "13 prints under the next record number and ends": what is left after the last whole record prints this, and nothing past record 1,000,000,000.
pub fn end(done: u64, rest: &[u8], out: &mut [u8]) -> usize
    requires { (length rest.now < 4) × (longest_line ≤ length out.old) }
    ensures { ((all : Bool) (s : model-run.Run) → Printed out.old 0 (records all done s rest.now) out.new result) × (result ≤ length out.old) }
{
    if rest.len() == 0 {
        return 0;
    }
    if done < MOST_RECORDS {
        return line::refuse(done + 1, Refusal::LeftOverBytes, out);
    }
    0
}

// "12: no first byte."
#[tactic(auto, unfolding(whole_runs::specs::Listing::listing))]
pub fn empty(out: &mut [u8]) -> usize
    requires { longest_line ≤ length out.old }
    ensures { ((all : Bool) → Printed out.old 0 (listing all []) out.new result) × (result ≤ length out.old) }
{
    line::refuse(0, Refusal::NoFirstByte, out)
}
