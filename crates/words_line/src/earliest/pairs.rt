// Named checkpoints as the call in place reads them: pairs of numbers, process, index, process, index, and so on.
ghost use Rattle.std.specs.Prelude.{◌≡◌, ◌≤◌, ◌<◌};
ghost use Rattle.laws.specs.Basics.{List, ℕ, ltb, length, get_or, take, pick};
ghost use Rattle.model.specs.declared.Named.{Named};
ghost use Rattle.model.specs.Words.{most_processes};
ghost use Rattle.words_line.specs.{Through.named_at, Through.named_in, earliest.Copying.no_named, earliest.Copying.copy_of, earliest.Copying.IsCopy};
ghost use Rattle.words_line.specs.earliest.Pairs.{SameLine};

use crate::earliest::list::Copied;
use model::{Named, PROCESSES};

// Two numbers for each of 17 elements: one more than a list may have.
const PAIRS: usize = 2 * PROCESSES + 2;

// A process that is in no run.
const IN_NO_RUN: u32 = PROCESSES as u32;

// The numbers in use stand before `end`.
#[derive(Clone, Copy)]
pub struct Pairs {
    pub numbers: [u32; PAIRS],
    pub end: usize,
}

// The pairs of the first m elements.
fn numbers_of(named: [Named; PROCESSES], m: usize) -> [u32; PAIRS]
    requires { (m ≤ most_processes) × ((k : ℕ) → k < m → (get_or named k no_named).process < most_processes) }
    ensures result_len { length result ≡ 34 }
    ensures by_index { (k : ℕ) → k < m → named_at result k ≡ get_or named k no_named }
{
    let mut numbers = [0u32; PAIRS];
    for k in 0..m {
        let c = named[k];
        let index = c.index;
        numbers[2 * k] = c.process as u32;
        numbers[2 * k + 1] = index.0 as u32;
    }
    numbers
}

// A process, or 16 for one that is in no run.
fn at_most_processes(process: usize) -> u32
    ensures { result ≡ pick (ltb process most_processes) process most_processes }
{
    if process < PROCESSES {
        process as u32
    } else {
        IN_NO_RUN
    }
}

// Pairs through which the line is that through the elements of a list that was copied. Of a list that is longer than any run, or that names a process which is in no run,
// no element matters: 17 pairs with the greatest process that it names are refused as it is.
pub fn pairs_of(copied: Copied) -> Pairs
    requires { IsCopy copied }
    ensures end_in_bounds { result.end ≤ length result.numbers }
    ensures same_line { (l : List Named) → copied ≡ copy_of l → SameLine l (named_in (take result.end result.numbers)) }
{
    let m = copied.length;
    let process = copied.process;
    if (m <= PROCESSES) & (process < PROCESSES) {
        let named = copied.named;
        let numbers = numbers_of(named, m);
        return Pairs {
            numbers,
            end: 2 * m,
        };
    }
    let most = at_most_processes(process);
    Pairs {
        numbers: [most; PAIRS],
        end: PAIRS,
    }
}
