// The line that is reported of a refused record.
ghost use Rattle.std.specs.Prelude.{◌+◌, ◌≤◌};
ghost use Rattle.laws.specs.Basics.{length};
ghost use Rattle.listing.specs.Printed.{Printed};
ghost use Rattle.machine_record.specs.{Recorded.refused_line, Recorded.line_for, Played.longest_line};

use machines::programs::text::{write_figure, write_word};

pub fn write_refused(out: &mut [u8], at: usize, number: u64, x: u64) -> usize
    requires { at + longest_line ≤ length out.old }
    ensures { Printed out.old at (refused_line number x) out.new result × (result ≤ at + longest_line) }
{
    let after_name = write_word(out, at, b"record: record ");
    let after_number = listing::write_number(out, after_name, number);
    write_figure(out, after_number, b": refused ", x)
}

// Nothing is reported of a record that is accepted.
pub fn write_line(out: &mut [u8], at: usize, number: u64, x: u64) -> usize
    requires { at + longest_line ≤ length out.old }
    ensures { Printed out.old at (line_for number x) out.new result × (result ≤ at + longest_line) }
{
    if x == 0 {
        return at;
    }
    write_refused(out, at, number, x)
}
