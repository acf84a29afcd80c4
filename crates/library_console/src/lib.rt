// The console on lent words (document 02, Note 13): the calls in place and two more, each with its caller, who gives the number of a role and the set of its processes. What
// the caller may not do is refused with number 25, before every other number, and so is a number that is no role's; the rest is done by the calls in place. Each takes any
// numbers and any words: specs/Asked has the outcomes. A refused call leaves every word as it was; only a start that is refused with another number makes them zero.

#![tactic(auto)]

// denied.rt: who asks, and what is denied
pub mod denied;

// receivers.rt: the receiver of a message under way
pub mod receivers;

// calls.rt: the library's calls
pub mod calls;

// shown.rt: what is shown to a caller: its members of a line, and how many checkpoints each process keeps
pub mod shown;

// list.rt: the checkpoints that the caller's processes keep
pub mod list;
