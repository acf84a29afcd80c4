// Note 13 of document 02, a console for shared clusters: who may do what. The outcome of each console call is in specs/Console, what is claimed of states that
// console calls reach in specs/Runs and specs/Shown; the calls themselves are the crate library_console.

#![tactic(auto)]

ghost use Rattle.std.specs.Prelude.{◌≡◌};
ghost use Rattle.theory_roles.specs.Console.{may, role_place, operation_place};

use model::Refusal;

#[derive(Clone, Copy)]
pub enum Role {
    Operator,
    JobOwner,
    Viewer,
}

#[derive(Clone, Copy)]
pub enum Operation {
    Start,
    Checkpoint,
    Send,
    Deliver,
    Lose,
    Recover,
    Line,
    Earliest,
    List,
    Counts,
}

// The caller: its role, and the set of a job owner's processes, bit p of which stands for process p. Another role's set is not looked at.
#[derive(Clone, Copy)]
pub struct Caller {
    pub role: Role,
    pub owned: u16,
}

// The answer of a list: how many checkpoints it gives.
pub type ListAnswer = Result<usize, Refusal>;

// The entries of the table below, in short.
const YES: bool = true;

const NO: bool = false;

// "A table of roles and operations says who may do what": a row for each role, an entry for each operation, in the order of the two types.
const MAY: [[bool; 10]; 3] = [
    // start, checkpoint, send, deliver, lose, recover, line, earliest, list, counts
    [YES, YES, YES, YES, YES, YES, YES, YES, YES, YES],
    [NO, YES, YES, YES, YES, NO, YES, NO, YES, NO],
    [NO, NO, NO, NO, NO, NO, NO, NO, NO, YES],
];

// The role's row in the table.
fn role_place(role: Role) -> usize
    ensures { result ≡ role_place role }
{
    match role {
        Role::Operator => 0,
        Role::JobOwner => 1,
        Role::Viewer => 2,
    }
}

// The operation's place in a row.
fn operation_place(operation: Operation) -> usize
    ensures { result ≡ operation_place operation }
{
    match operation {
        Operation::Start => 0,
        Operation::Checkpoint => 1,
        Operation::Send => 2,
        Operation::Deliver => 3,
        Operation::Lose => 4,
        Operation::Recover => 5,
        Operation::Line => 6,
        Operation::Earliest => 7,
        Operation::List => 8,
        Operation::Counts => 9,
    }
}

// Whether the table lets the role do the operation.
pub fn may(role: Role, operation: Operation) -> bool
    ensures { result ≡ may role operation }
{
    let i = role_place(role);
    let j = operation_place(operation);
    MAY[i][j]
}
