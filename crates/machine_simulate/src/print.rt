// What is printed of a result, to a lent buffer: every function hands back the place after what it printed.
ghost use Rattle.std.specs.Prelude.{◌∷◌, ◌+◌, ◌≤◌};
ghost use Rattle.laws.specs.Basics.{length};
ghost use Rattle.whole_runs.specs.Listing.{decimal, space};
ghost use Rattle.listing.specs.Printed.{Printed};
ghost use Rattle.machine_simulate.specs.Text.{longest_text, figures_text, result_text, row_text};

use machines::programs::text::{write_figure, write_refused};
use theory_recording::spacing::{TrialFigures, TrialResult};

// The five figures, one a line.
fn write_figures(out: &mut [u8], r: TrialFigures) -> usize
    requires { longest_text ≤ length out.old }
    ensures { Printed out.old 0 (figures_text r) out.new result × (result ≤ longest_text) }
{
    let one = write_figure(out, 0, b"deliveries ", r.deliveries as u64);
    let two = write_figure(out, one, b"forced ", r.forced as u64);
    let three = write_figure(out, two, b"most-kept ", r.most as u64);
    let four = write_figure(
        out,
        three,
        b"forced-per-thousand-deliveries ",
        r.quotient as u64,
    );
    write_figure(out, four, b"remainder ", r.remainder as u64)
}

// All that is printed of a result: its figures, or its refusal.
pub fn write_result(out: &mut [u8], r: TrialResult) -> usize
    requires { longest_text ≤ length out.old }
    ensures { Printed out.old 0 (result_text r) out.new result × (result ≤ longest_text) }
{
    match r.answer {
        Err(why) => write_refused(out, why),
        Ok(()) => write_figures(out, r.figures),
    }
}

// A number after a space.
fn write_field(out: &mut [u8], at: usize, x: u64) -> usize
    requires { at + 21 ≤ length out.old }
    ensures { Printed out.old at (space ∷ decimal x) out.new result × (result ≤ at + 21) }
{
    let after_space = listing::write_byte(out, at, b' ');
    listing::write_number(out, after_space, x)
}

// The spacing and the five figures, in one row.
pub fn write_row(out: &mut [u8], spacing: u32, r: TrialResult) -> usize
    requires { longest_text ≤ length out.old }
    ensures { Printed out.old 0 (row_text spacing r) out.new result × (result ≤ longest_text) }
{
    let f = r.figures;
    let first = listing::write_number(out, 0, spacing as u64);
    let one = write_field(out, first, f.deliveries as u64);
    let two = write_field(out, one, f.forced as u64);
    let three = write_field(out, two, f.most as u64);
    let four = write_field(out, three, f.quotient as u64);
    let five = write_field(out, four, f.remainder as u64);
    listing::write_byte(out, five, b'\n')
}
