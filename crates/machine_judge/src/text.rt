// The line of a verdict, printed to the front of a lent buffer.
ghost use Rattle.std.specs.Prelude.{◌≤◌, ◌<◌, Ok, Some};
ghost use Rattle.laws.specs.Basics.{length};
ghost use Rattle.model.specs.Words.{most_processes};
ghost use Rattle.listing.specs.Printed.{Printed};
ghost use Rattle.machine_judge.specs.Text.{verdict_text, longest_verdict, Small};

use machines::programs::text::{write_refused, write_word};
use theory_patterns::{BreakingPair, Verdict};

fn write_breaks(out: &mut [u8], w: BreakingPair) -> usize
    requires { (longest_verdict ≤ length out.old) × (w.near.process < most_processes) × (w.far.process < most_processes) }
    ensures { Printed out.old 0 (verdict_text (Ok (Some w))) out.new result }
{
    let near = w.near;
    let far = w.far;
    let word = write_word(out, 0, b"breaks");
    let first = listing::write_pair(out, word, near.process as u16, near.index.0);
    let second = listing::write_pair(out, first, far.process as u16, far.index.0);
    listing::write_byte(out, second, b'\n')
}

// The line of a verdict, and how long it is.
pub fn write_verdict(out: &mut [u8], verdict: Verdict) -> usize
    requires { (longest_verdict ≤ length out.old) × Small verdict }
    ensures { Printed out.old 0 (verdict_text verdict) out.new result }
{
    match verdict {
        Err(why) => write_refused(out, why),
        Ok(None) => write_word(out, 0, b"trackable\n"),
        Ok(Some(w)) => write_breaks(out, w),
    }
}
