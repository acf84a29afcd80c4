// Texts printed to a lent buffer from a place on: every function hands back the place after what it printed.
ghost use Rattle.std.specs.Prelude.{◌+◌, ◌≤◌};
ghost use Rattle.laws.specs.Basics.{length};
ghost use Rattle.listing.specs.Printed.{Room, Printed};
ghost use Rattle.machines.specs.programs.Texts.{figure_text, refused_text, longest_figure, longest_refusal};

use model::Refusal;

pub fn write_word(out: &mut [u8], at: usize, word: &[u8]) -> usize
    requires { Room out.old at word.now }
    ensures { Printed out.old at word.now out.new result }
{
    let size = word.len();
    let mut k = 0;
    while k < size {
        let byte = word[k];
        out[at + k] = byte;
        k += 1;
    }
    at + size
}

// A name and its figure: one line.
pub fn write_figure(out: &mut [u8], at: usize, name: &[u8], x: u64) -> usize
    requires { at + (length name.now + longest_figure) ≤ length out.old }
    ensures { Printed out.old at (figure_text name.now x) out.new result × (result ≤ at + (length name.now + longest_figure)) }
{
    let after_name = write_word(out, at, name);
    let after_figure = listing::write_number(out, after_name, x);
    listing::write_byte(out, after_figure, b'\n')
}

// `refused` and the number, at the front.
pub fn write_refused(out: &mut [u8], why: Refusal) -> usize
    requires { longest_refusal ≤ length out.old }
    ensures { Printed out.old 0 (refused_text why) out.new result × (result ≤ longest_refusal) }
{
    let number = listing::summaries::number_of(why);
    write_figure(out, 0, b"refused ", number as u64)
}
