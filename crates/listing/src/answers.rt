// An answer as one number of 64 bits, for callers in a language to which no enum can be handed. specs/Codes says which number: the fields are the same for
// every call. The report of an answer is that of `summaries`, which prints it.
#![tactic(auto, unfolding(crate::specs::Summarised::report_in, crate::specs::answers::Codes::coded, crate::specs::answers::Codes::value_code_of))]

ghost use Rattle.std.specs.Prelude.{◌≡◌, ◌≤◌, ◌<◌};
ghost use Rattle.laws.specs.Basics.{Some, ℕ};
ghost use Rattle.listing.specs.{Summarised.report_in, answers.Codes.value_code_of, answers.Codes.coded, answers.Codes.Fits};

use crate::Summary;
use crate::summaries::Accepted;
use model::Refusal;

// The weights of the fields: of one deletion, of there being a value, of the value, and of the set that rose.
const DELETION: u64 = 256;

const GIVEN: u64 = 8388608;

const VALUE: u64 = 16777216;

const ROSE: u64 = 281474976710656;

fn value_code(value: Option<u64>) -> u64
    requires { (v : ℕ) → value ≡ Some v → v < 16777216 }
    ensures { (result ≡ value_code_of value) × (result ≤ 281474968322048) }
{
    match value {
        None => 0,
        Some(v) => GIVEN + VALUE * v,
    }
}

// The number of what is said of an answer.
pub fn code_of(summary: Summary, rose: u16) -> u64
    requires { Fits (report_in summary) }
    ensures { result ≡ coded (report_in summary) rose }
{
    let value = value_code(summary.value);
    let refused = u64::from(summary.number());
    let deletions = summary.deletions as u64;
    refused + DELETION * deletions + value + ROSE * u64::from(rose)
}

// The number of an answer. `rose` is the set of entries that rose, 0 of a call that takes nothing in.
pub fn of<A: Accepted>(answer: Result<A, Refusal>, rose: u16) -> u64
    requires { Fits (A.report answer) }
    ensures { result ≡ coded (A.report answer) rose }
{
    code_of(Summary::from(answer), rose)
}
