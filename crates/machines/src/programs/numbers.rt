// The number that a word is, by its decimal digits. 4,294,967,296 stands for every greater number, and 4,294,967,297 for a word that is no number.
ghost use Rattle.std.specs.Prelude.{◌≡◌, ◌≤◌};
ghost use Rattle.laws.specs.Basics.{Option, ℕ};
ghost use Rattle.machines.specs.programs.Numbers.{grown, stands_for, number_in, at_most, no_number};

// The greatest number of 32 bits; what stands for every greater one, and for a word that is no number (too_great, no_number in specs/Numbers).
pub const GREATEST: u64 = 4294967295;

pub const TOO_GREAT: u64 = GREATEST + 1;

pub const NO_NUMBER: u64 = GREATEST + 2;

const CLAMPED: u32 = GREATEST as u32;

// One digit more, whatever the value stands for.
fn append(value: u64, byte: u8) -> u64
    requires { value ≤ no_number }
    ensures { ((word : Option ℕ) → value ≡ stands_for word → result ≡ stands_for (grown word byte)) × (result ≤ no_number) }
{
    if byte < 48 {
        return NO_NUMBER;
    }
    if 57 < byte {
        return NO_NUMBER;
    }
    if GREATEST < value {
        return value;
    }
    let next = value * 10 + (byte - 48) as u64;
    if GREATEST < next {
        return TOO_GREAT;
    }
    next
}

pub fn number_in(word: &[u8]) -> u64
    ensures { result ≡ number_in word.now }
{
    if word.len() == 0 {
        return NO_NUMBER;
    }
    let mut value: u64 = 0;
    let mut i = 0;
    while i < word.len() {
        let next = append(value, word[i]);
        value = next;
        i += 1;
    }
    value
}

// A number of 32 bits: the greatest for every greater one. For callers to whom these two are the same.
pub fn clamped(x: u64) -> u32
    ensures { result ≡ at_most x }
{
    if GREATEST < x { CLAMPED } else { x as u32 }
}
