// The parts of a line, printed into a lent buffer from a place on: every function hands back the place after what it printed.
ghost use Rattle.std.specs.Prelude.{◌≡◌, ◌+◌, ◌*◌, ◌≤◌};
ghost use Rattle.laws.specs.Basics.{Some, min, length};
ghost use Rattle.machine_console.specs.{Replied.longest_field, Text.field_text, Text.pairs_text, Text.entries_text, Text.member_shown, Text.members_text};
ghost use Rattle.listing.specs.Printed.{Printed};

use theory_roles::{Caller, Role};

// The smaller of two numbers.
pub fn least(x: usize, y: usize) -> usize
    ensures { result ≡ min x y }
{
    if x < y {
        return x;
    }
    y
}

// A value after a space, or a hyphen where there is none.
pub fn write_value(out: &mut [u8], at: usize, value: Option<u64>) -> usize
    requires { at + longest_field ≤ length out.old }
    ensures { Printed out.old at (field_text value) out.new result × (result ≤ at + longest_field) }
{
    let after_space = listing::write_byte(out, at, b' ');
    listing::write_value(out, after_space, value)
}

pub fn write_field(out: &mut [u8], at: usize, x: u64) -> usize
    requires { at + longest_field ≤ length out.old }
    ensures { Printed out.old at (field_text (Some x)) out.new result × (result ≤ at + longest_field) }
{
    write_value(out, at, Some(x))
}

// How many pairs, and each of them that the list has.
pub fn write_pairs(out: &mut [u8], at: usize, count: usize, pairs: &[u16]) -> usize
    requires { at + (longest_field + longest_field * length pairs.now) ≤ length out.old }
    ensures { Printed out.old at (pairs_text count pairs.now) out.new result × (result ≤ at + (longest_field + longest_field * length pairs.now)) }
{
    let counted = write_field(out, at, count as u64);
    let shown = least(count, pairs.len() / 2);
    listing::write_deletions(out, counted, pairs, shown)
}

// What is said of place p of a line list after a line call: the entry, or a hyphen where the call wrote none.
fn member(caller: Caller, n: usize, p: usize, x: u16) -> Option<u64>
    ensures { result ≡ member_shown caller n p x }
{
    let role = caller.role;
    let owned = caller.owned as u32;
    let seen = library_console::denied::is_entitled(role, owned, n, p);
    if seen {
        return Some(x as u64);
    }
    None
}

// The places of a line list after a line call.
pub fn write_members(out: &mut [u8], at: usize, caller: Caller, n: usize, line: &[u16]) -> usize
    requires { at + longest_field * length line.now ≤ length out.old }
    ensures { Printed out.old at (members_text caller n 0 line.now) out.new result × (result ≤ at + longest_field * length line.now) }
{
    let mut place = at;
    let mut p = 0;
    while p < line.len() {
        let x = line[p];
        let shown = member(caller, n, p, x);
        let next = write_value(out, place, shown);
        place = next;
        p += 1;
    }
    place
}

// The entries of a line list, all of which were written: an operator sees them all.
pub fn write_entries(out: &mut [u8], at: usize, line: &[u16]) -> usize
    requires { at + longest_field * length line.now ≤ length out.old }
    ensures { Printed out.old at (entries_text line.now) out.new result × (result ≤ at + longest_field * length line.now) }
{
    let role = Role::Operator;
    let caller = Caller { role, owned: 0 };
    write_members(out, at, caller, 0, line)
}
