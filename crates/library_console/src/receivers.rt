// The receiver of a message under way, on any words: a message that is not under way to an owner's process is denied with 25, which comes before 2.
ghost use Rattle.std.specs.Prelude.{◌≡◌, ◌+◌, ◌≤◌, ◌<◌};
ghost use Rattle.laws.specs.Basics.{true, length};
ghost use Rattle.model.specs.{Steps.found, Words.most_under_way};
ghost use Rattle.words.specs.Layout.{word, fits, run_of, state_size};
ghost use Rattle.library_console.specs.Receivers.{SearchedTo, found_in_of, receiver_is};

use crate::denied;
use model::MESSAGES;
use words::places;

// The receiver of a message, and whether there is such a message.
#[derive(Clone, Copy)]
pub struct Receiver {
    pub found: bool,
    pub process: usize,
}

// What a search of the first places brought: how many of them are used, and the receiver.
#[derive(Clone, Copy)]
struct Searched {
    used: usize,
    found: bool,
    process: usize,
}

// Place k, after the places before it were searched.
fn look_at(w: &[u16], k: usize, m: u32, many: usize, before: Searched) -> Searched
    requires { (length w.now ≡ state_size) × (k < most_under_way) × (many ≡ word w.now 1) × SearchedTo w.now m k before }
    ensures { SearchedTo w.now m (k + 1) result }
{
    let number = words::messages::number_at(w, k);
    if number == 0 {
        return before;
    }
    let used = before.used;
    if (used < many) & (number == m) {
        let process = denied::number_of(w[places::RECEIVERS + k]);
        return Searched {
            used: used + 1,
            found: true,
            process,
        };
    }
    Searched {
        used: used + 1,
        found: before.found,
        process: before.process,
    }
}

// The first `end` places, one after the other.
fn search(w: &[u16], end: usize, m: u32, many: usize) -> Searched
    requires { (length w.now ≡ state_size) × (end ≤ most_under_way) × (many ≡ word w.now 1) }
    ensures { SearchedTo w.now m end result }
{
    let mut searched = Searched {
        used: 0,
        found: false,
        process: 0,
    };
    for k in 0..end {
        let next = look_at(w, k, m, many, searched);
        searched = next;
    }
    searched
}

// Of words that fit. Number 0 is that of the zeros after the messages, where more are said to be under way than there are.
fn receiver_in(w: &[u16], m: u32) -> Receiver
    requires { fits w.now ≡ true }
    ensures { result ≡ receiver_is (found_in_of w.now m) }
{
    let many = denied::number_of(w[places::UNDER_WAY]);
    let end = denied::number_of(w[places::END]);
    let searched = search(w, end, m, many);
    let used = searched.used;
    if (m == 0) & ((used < many) & (used < MESSAGES)) {
        return Receiver {
            found: true,
            process: 0,
        };
    }
    Receiver {
        found: searched.found,
        process: searched.process,
    }
}

// Other words stand for a state of zeros.
pub fn receiver_of(w: &[u16], m: u32) -> Receiver
    ensures { result ≡ receiver_is (found (run_of w.now) m) }
{
    let fit = denied::is_fit(w);
    if !fit {
        return Receiver {
            found: false,
            process: 0,
        };
    }
    receiver_in(w, m)
}
