// What a caller is denied on lent words: an operation by the table; an owner also a process that is not its own, and a message that is not under way to one of its own.
// Words that are not sound deny by the run that they stand for, since 25 comes before 2.
ghost use Rattle.std.specs.Prelude.{◌≡◌};
ghost use Rattle.laws.specs.Basics.{ℕ};
ghost use Rattle.model.specs.{Words.in_set, Steps.found};
ghost use Rattle.words.specs.Layout.{fits, run_of};
ghost use Rattle.theory_roles.specs.Console.{owns, entitled_by, entitled_message_by, denied, denied_process, denied_message};
ghost use Rattle.library_console.specs.Asked.{claim_of, denied_as};

use crate::receivers;
use model::MESSAGES;
use theory_roles::{Operation, Role};
use words::{WORDS, places};

// The roles' numbers: their places in the table.
const OPERATOR: u32 = 0;

const JOB_OWNER: u32 = 1;

const VIEWER: u32 = 2;

// The role that a caller claims by its number, if a role has it. The number is judged whole.
pub fn claim_of(role: u32) -> Option<Role>
    ensures { result ≡ claim_of role }
{
    if role == OPERATOR {
        return Some(Role::Operator);
    }
    if role == JOB_OWNER {
        return Some(Role::JobOwner);
    }
    if role == VIEWER {
        return Some(Role::Viewer);
    }
    None
}

// Bit p of a set: what is left of it once its lowest p bits are gone is odd.
fn has_bit(set: u32, p: usize) -> bool
    ensures { result ≡ in_set set p }
{
    let left = admissions::above(set, p);
    left % 2 == 1
}

// Process p is one of n, and in the owned set, all 32 bits of which count.
fn is_own(owned: u32, n: usize, p: usize) -> bool
    ensures { result ≡ owns owned n p }
{
    if n <= p {
        return false;
    }
    has_bit(owned, p)
}

// Process p is one that the caller's operations may concern: any process for an operator, its own for an owner.
pub fn is_entitled(role: Role, owned: u32, n: usize, p: usize) -> bool
    ensures { result ≡ entitled_by role owned n p }
{
    match role {
        Role::Operator => true,
        Role::JobOwner => is_own(owned, n, p),
        Role::Viewer => false,
    }
}

pub(crate) fn number_of(x: u16) -> usize
    ensures { result ≡ x }
{
    x as usize
}

// The words are as many as a state's, and the end of the places of messages in use is one past a used place.
pub(crate) fn is_fit(w: &[u16]) -> bool
    ensures { result ≡ fits w.now }
{
    if w.len() != WORDS {
        return false;
    }
    let end = number_of(w[places::END]);
    if MESSAGES < end {
        return false;
    }
    if end == 0 {
        return true;
    }
    words::messages::is_used(w, end - 1)
}

// How many processes the run has that the words stand for. Other words stand for a state of zeros.
pub fn count_of(w: &[u16]) -> usize
    ensures { result ≡ (run_of w.now).count }
{
    let fit = is_fit(w);
    if !fit {
        return 0;
    }
    number_of(w[places::COUNT])
}

// The table denies the operation. It does not ask whose processes they are.
pub fn is_denied(role: u32, operation: Operation) -> bool
    ensures { (owned : ℕ) → result ≡ denied_as (claim_of role) owned (λ c. denied c operation) }
{
    let claim = claim_of(role);
    match claim {
        None => true,
        Some(known) => !theory_roles::may(known, operation),
    }
}

// An operation on process p is denied.
pub fn is_process_denied(role: u32, owned: u32, operation: Operation, w: &[u16], p: usize) -> bool
    ensures { result ≡ denied_as (claim_of role) owned (λ c. denied_process c (run_of w.now) operation p) }
{
    let n = count_of(w);
    let claim = claim_of(role);
    match claim {
        None => true,
        Some(known) => {
            let allowed = theory_roles::may(known, operation);
            let entitled = is_entitled(known, owned, n, p);
            !(allowed & entitled)
        }
    }
}

// A message is one that the caller's operations may concern: any message for an operator, those under way to its own processes for an owner.
fn is_message_entitled(role: Role, owned: u32, w: &[u16], m: u32) -> bool
    ensures { result ≡ entitled_message_by role owned (run_of w.now).count (found (run_of w.now) m) }
{
    match role {
        Role::Operator => true,
        Role::JobOwner => {
            let n = count_of(w);
            let to = receivers::receiver_of(w, m);
            let own = is_own(owned, n, to.process);
            to.found & own
        }
        Role::Viewer => false,
    }
}

// An operation on message m is denied.
pub fn is_message_denied(role: u32, owned: u32, operation: Operation, w: &[u16], m: u32) -> bool
    ensures { result ≡ denied_as (claim_of role) owned (λ c. denied_message c (run_of w.now) operation m) }
{
    let claim = claim_of(role);
    match claim {
        None => true,
        Some(known) => {
            let allowed = theory_roles::may(known, operation);
            let entitled = is_message_entitled(known, owned, w, m);
            !(allowed & entitled)
        }
    }
}
