// A line printed into a lent buffer that has room for the longest one, and whether the replay goes on after it.
ghost use Rattle.std.specs.Prelude.{◌≡◌, ◌+◌, ◌*◌, ◌≤◌};
ghost use Rattle.laws.specs.Basics.{length};
ghost use Rattle.whole_runs.specs.Listing.{line_text, refusal_text, goes_on_of, most_records};
ghost use Rattle.listing.specs.{Lines.number_said, Lines.reply_of, Lines.longest_line, Printed.Printed, Summarised.report_in};
ghost use Rattle.whole_runs.proofs.Sizes.{Small};

use crate::Summary;
use model::Refusal;
use std::num::NonZeroU8;

// A line whose numbers are small.
pub fn print(summary: Summary, deleted: &[u16], number: u64, out: &mut [u8], at: usize) -> usize
    requires { Small (report_in summary) × (2 * summary.deletions ≤ length deleted.now) × (number ≤ most_records) × (at + longest_line ≤ length out.old) }
    ensures { Printed out.old at (line_text number (reply_of summary deleted.now)) out.new result × (result ≤ length out.old) }
{
    crate::write_line(out, at, number, summary, deleted)
}

// The line of a refusal that belongs to the trace and to no call.
pub fn refuse(number: u64, why: Refusal, out: &mut [u8]) -> usize
    requires { (number ≤ most_records) × (longest_line ≤ length out.old) }
    ensures { Printed out.old 0 (refusal_text number why) out.new result × (result ≤ length out.old) }
{
    crate::write_refusal(out, 0, number, crate::summaries::number_of(why))
}

// Whether the replay goes on after a record whose line says this refusal number, none if it is accepted: "stops after printing the first refusal", unless `all` is asked for.
#[tactic(auto, using(crate::proofs::Summarised::none_said), unfolding(whole_runs::specs::Listing::goes_on_of))]
pub fn goes_on(all: bool, refused: Option<NonZeroU8>) -> bool
    ensures { result ≡ goes_on_of all (number_said refused) }
{
    all || refused.is_none()
}
