// Each call on the words, asked for by the number of the caller's role and the set of its processes, with lent lists for what it writes.
ghost use Rattle.std.specs.Prelude.{◌≡◌, Some};
ghost use Rattle.laws.specs.Basics.{List, ℕ, length};
ghost use Rattle.listing.specs.Summarised.{report_in};
ghost use Rattle.words.specs.Layout.{run_of, state_size};
ghost use Rattle.theory_roles.specs.Console.{list_report};
ghost use Rattle.library_console.specs.Asked.{claim_of};
ghost use Rattle.machine_console.specs.{Made.made_with, Replied.Claims, Replied.Replies};
ghost use Rattle.theory_roles.specs.declared.Operation.TheVariants as operation;

use crate::script::Call;
use listing::Summary;
use model::PROCESSES;
use theory_roles::{ListAnswer, Operation, Role};
use words::WORDS;

// What a call answered: what its line says, and the set of the entries that rose.
#[derive(Clone, Copy)]
pub struct Replied {
    pub summary: Summary,
    pub rose: u16,
}

// The number of a role.
fn number_of(role: Role) -> u32
    ensures { claim_of result ≡ Some role }
{
    match role {
        Role::Operator => 0,
        Role::JobOwner => 1,
        Role::Viewer => 2,
    }
}

fn checkpoint(w: &mut [u16], role: u32, owned: u32, c: Call, pairs: &mut [u16]) -> Replied
    requires { Claims role owned c.caller }
    ensures { (line : List ℕ) → Replies operation.Checkpoint (made_with operation.Checkpoint (run_of w.old) c pairs.old line) w.new result pairs.new line }
{
    let answer = library_console::calls::checkpoint(role, owned, w, c.process as usize, pairs);
    let summary = Summary::from(answer);
    Replied { summary, rose: 0 }
}

fn send(w: &mut [u16], role: u32, owned: u32, c: Call) -> Replied
    requires { Claims role owned c.caller }
    ensures { (pairs line : List ℕ) → Replies operation.Send (made_with operation.Send (run_of w.old) c pairs line) w.new result pairs line }
{
    let answer = library_console::calls::send(
        role,
        owned,
        w,
        c.process as usize,
        c.argument as usize,
    );
    let summary = Summary::from(answer);
    Replied { summary, rose: 0 }
}

fn deliver(w: &mut [u16], role: u32, owned: u32, c: Call, pairs: &mut [u16]) -> Replied
    requires { Claims role owned c.caller }
    ensures { (line : List ℕ) → Replies operation.Deliver (made_with operation.Deliver (run_of w.old) c pairs.old line) w.new result pairs.new line }
{
    let delivered = library_console::calls::deliver(role, owned, w, c.argument, pairs);
    let answer = delivered.answer;
    let summary = Summary::from(answer);
    Replied {
        summary,
        rose: delivered.rose,
    }
}

fn lose(w: &mut [u16], role: u32, owned: u32, c: Call) -> Replied
    requires { Claims role owned c.caller }
    ensures { (pairs line : List ℕ) → Replies operation.Lose (made_with operation.Lose (run_of w.old) c pairs line) w.new result pairs line }
{
    let answer = library_console::calls::lose(role, owned, w, c.argument);
    let summary = Summary::from(answer);
    Replied { summary, rose: 0 }
}

fn recover(
    w: &mut [u16],
    role: u32,
    owned: u32,
    c: Call,
    pairs: &mut [u16],
    line: &mut [u16],
) -> Replied
    requires { Claims role owned c.caller }
    ensures { Replies operation.Recover (made_with operation.Recover (run_of w.old) c pairs.old line.old) w.new result pairs.new line.new }
{
    let answer = library_console::calls::recover(role, owned, w, c.low as u32, pairs, line);
    let summary = Summary::from(answer);
    Replied { summary, rose: 0 }
}

fn members(w: &[u16], role: u32, owned: u32, c: Call, line: &mut [u16]) -> Replied
    requires { Claims role owned c.caller }
    ensures { (pairs : List ℕ) → Replies operation.Line (made_with operation.Line (run_of w.now) c pairs line.old) w.now result pairs line.new }
{
    let answer = library_console::shown::line(role, owned, w, c.low as u32, line);
    let summary = Summary::from(answer);
    Replied { summary, rose: 0 }
}

// The line through one named checkpoint.
fn earliest(w: &[u16], role: u32, owned: u32, c: Call, line: &mut [u16]) -> Replied
    requires { Claims role owned c.caller }
    ensures { (pairs : List ℕ) → Replies operation.Earliest (made_with operation.Earliest (run_of w.now) c pairs line.old) w.now result pairs line.new }
{
    let named = [c.process as u32, c.low as u32];
    let answer = library_console::calls::earliest(role, owned, w, &named, line);
    let summary = Summary::from(answer);
    Replied { summary, rose: 0 }
}

fn of_list(answer: ListAnswer) -> Summary
    ensures { report_in result ≡ list_report answer }
{
    Summary::from(answer)
}

fn list(w: &[u16], role: u32, owned: u32, c: Call, pairs: &mut [u16]) -> Replied
    requires { Claims role owned c.caller }
    ensures { (line : List ℕ) → Replies operation.List (made_with operation.List (run_of w.now) c pairs.old line) w.now result pairs.new line }
{
    let answer = library_console::list::list(role, owned, w, pairs);
    let summary = of_list(answer);
    Replied { summary, rose: 0 }
}

fn counts(w: &[u16], role: u32, owned: u32, c: Call, line: &mut [u16]) -> Replied
    requires { Claims role owned c.caller }
    ensures { (pairs : List ℕ) → Replies operation.Counts (made_with operation.Counts (run_of w.now) c pairs line.old) w.now result pairs line.new }
{
    let answer = library_console::shown::counts(role, owned, w, line);
    let summary = Summary::from(answer);
    Replied { summary, rose: 0 }
}

// A start on fresh words, which an accepted one puts in place of the others.
fn start_fresh(w: &mut [u16], role: u32, owned: u32, c: Call, fresh: &mut [u16]) -> Replied
    requires { Claims role owned c.caller × (length w.old ≡ state_size) × (length fresh.old ≡ state_size) }
    ensures { (pairs line : List ℕ) → Replies operation.Start (made_with operation.Start (run_of w.old) c pairs line) w.new result pairs line }
{
    let block_counts = [1u32; PROCESSES];
    let answer = library_console::calls::start(
        role,
        owned,
        fresh,
        c.process as usize,
        &block_counts,
    );
    let summary = Summary::from(answer);
    let refused = summary.number();
    if refused == 0 {
        library_readers::copy_words(fresh, 0, WORDS, w);
    }
    Replied { summary, rose: 0 }
}

fn start(w: &mut [u16], role: u32, owned: u32, c: Call) -> Replied
    requires { Claims role owned c.caller × (length w.old ≡ state_size) }
    ensures { (pairs line : List ℕ) → Replies operation.Start (made_with operation.Start (run_of w.old) c pairs line) w.new result pairs line }
{
    let mut fresh = [0u16; WORDS];
    start_fresh(w, role, owned, c, &mut fresh)
}

// A call, by its operation.
pub fn call(w: &mut [u16], c: Call, pairs: &mut [u16], line: &mut [u16]) -> Replied
    requires { length w.old ≡ state_size }
    ensures { Replies c.operation (made_with c.operation (run_of w.old) c pairs.old line.old) w.new result pairs.new line.new }
{
    let caller = c.caller;
    let kind = caller.role;
    let role = number_of(kind);
    let owned = caller.owned as u32;
    let operation = c.operation;
    match operation {
        Operation::Checkpoint => checkpoint(w, role, owned, c, pairs),
        Operation::Send => send(w, role, owned, c),
        Operation::Deliver => deliver(w, role, owned, c, pairs),
        Operation::Lose => lose(w, role, owned, c),
        Operation::Recover => recover(w, role, owned, c, pairs, line),
        Operation::Line => members(w, role, owned, c, line),
        Operation::Earliest => earliest(w, role, owned, c, line),
        Operation::List => list(w, role, owned, c, pairs),
        Operation::Counts => counts(w, role, owned, c, line),
        Operation::Start => start(w, role, owned, c),
    }
}
