// The words that the program is started with: numbers (`machines::programs::numbers`), and a spacing or two with a hyphen between.
ghost use Rattle.std.specs.Prelude.{◌≡◌, ◌≤◌};
ghost use Rattle.laws.specs.Basics.{length};
ghost use Rattle.machine_simulate.specs.Arguments.{hyphen_or, hyphen_in_of, spacings_in, is_wrong_of, is_refused, no_numbers, with_word};

use machines::programs::numbers::{GREATEST, NO_NUMBER, number_in};
use model::PROCESSES;
use theory_recording::spacing::{MOST_SPACING, MOST_STEPS};

// The place of the first hyphen once byte i was looked at too; `size` where there is none yet.
fn hyphen_or(size: usize, i: usize, byte: u8, place: usize) -> usize
    requires { (i ≤ size) × (place ≤ size) }
    ensures { (result ≡ hyphen_or size i byte place) × (result ≤ size) }
{
    if place < size {
        return place;
    }
    if byte == 45 {
        return i;
    }
    place
}

// The place of the first hyphen of a word; its length where there is none.
fn hyphen_in(word: &[u8]) -> usize
    ensures { (result ≡ hyphen_in_of word.now) × (result ≤ length word.now) }
{
    let size = word.len();
    let mut place = size;
    let mut i = 0;
    while i < size {
        let next = hyphen_or(size, i, word[i], place);
        place = next;
        i += 1;
    }
    place
}

// What the second word asks for: one spacing, or many, all from one to another.
#[derive(Clone, Copy)]
pub struct Spacings {
    pub many: bool,
    pub from: u64,
    pub to: u64,
}

// The numbers of the four words.
#[derive(Clone, Copy)]
pub struct Numbers {
    pub n: u64,
    pub spacings: Spacings,
    pub steps: u64,
    pub seed: u64,
}

pub fn spacings_in(word: &[u8]) -> Spacings
    ensures { result ≡ spacings_in word.now }
{
    let place = hyphen_in(word);
    let from = number_in(&word[..place]);
    if place == word.len() {
        return Spacings {
            many: false,
            from,
            to: from,
        };
    }
    let next = place + 1;
    let to = number_in(&word[next..]);
    Spacings {
        many: true,
        from,
        to,
    }
}

// Whether a word is none of what it must be: a number, and for the starting value one of 32 bits.
pub fn is_wrong(n: u64, spacings: Spacings, steps: u64, seed: u64) -> bool
    ensures { result ≡ is_wrong_of n spacings steps seed }
{
    (n == NO_NUMBER)
        | (spacings.from == NO_NUMBER)
        | (spacings.to == NO_NUMBER)
        | (steps == NO_NUMBER)
        | (GREATEST < seed)
}

// Whether a table is refused.
pub fn is_refused(n: u64, from: u64, to: u64, steps: u64) -> bool
    ensures { result ≡ is_refused n from to steps }
{
    let count = theory_recording::spacing::figures::is_outside(1, PROCESSES, n as usize);
    let first = theory_recording::spacing::figures::is_outside(1, MOST_SPACING, from as usize);
    let last = theory_recording::spacing::figures::is_outside(1, MOST_SPACING, to as usize);
    let length = theory_recording::spacing::figures::is_outside(1, MOST_STEPS, steps as usize);
    count | first | last | length | (to < from)
}

// Before any word is known.
pub fn no_numbers() -> Numbers
    ensures { result ≡ no_numbers }
{
    let spacings = Spacings {
        many: false,
        from: 0,
        to: 0,
    };
    Numbers {
        n: 0,
        spacings,
        steps: 0,
        seed: 0,
    }
}

// With word i.
pub fn with_word(i: usize, k: Numbers, word: &[u8]) -> Numbers
    ensures { result ≡ with_word i k word.now }
{
    if i == 2 {
        let spacings = spacings_in(word);
        return Numbers { spacings, ..k };
    }
    let number = number_in(word);
    if i == 1 {
        return Numbers { n: number, ..k };
    }
    if i == 3 {
        return Numbers { steps: number, ..k };
    }
    Numbers { seed: number, ..k }
}
