// The pins of one process, as a row of words: 0 names nothing, any other word is one above the index of the checkpoint that it names.
ghost use Rattle.std.specs.Prelude.{◌≡◌, ◌^◌, ◌≤◌, ◌<◌};
ghost use Rattle.laws.specs.Basics.{pick};
ghost use Rattle.laws.specs.Tests.{some_of};
ghost use Rattle.model.specs.Words.{names, in_set, most_processes};
ghost use Rattle.words.specs.Layout.{index_of_def};
ghost use Rattle.words_process.specs.Pins.{pin_row, moved_row, risen_or_own};

use model::PROCESSES;

// Some pin of the row names the checkpoint of this word: it is kept.
pub fn is_pinned(pins: [u16; PROCESSES], word: u16) -> bool
    requires { 1 ≤ word }
    ensures { result ≡ some_of (λ pin. names pin (index_of_def word)) (pin_row pins) }
{
    let mut any = false;
    for f in 0..PROCESSES {
        any = any | (pins[f] == word);
    }
    any
}

// The bit of entry f in a set, worth 2 to the power f.
pub fn bit(f: usize) -> u16
    requires { f < most_processes }
    ensures { result ≡ 2 ^ f }
{
    1u16 << f
}

fn moved_pin(moves: u16, f: usize, old: u16, new: u16) -> u16
    requires { f < most_processes }
    ensures { result ≡ pick (in_set moves f) new old }
{
    if moves & bit(f) == 0 { old } else { new }
}

// The pins after those of a set have moved to one word; bit f stands for the pin for f. Every iteration stores its pin, moved or not: such a loop takes several pins
// at a time.
fn move_pins(moves: u16, pins: [u16; PROCESSES], new: u16) -> [u16; PROCESSES]
    ensures { result ≡ moved_row (in_set moves) pins new }
{
    let mut then = pins;
    for f in 0..PROCESSES {
        let old = pins[f];
        let pin = moved_pin(moves, f, old, new);
        then[f] = pin;
    }
    then
}

// The pins of process i after a receipt, by the set of the entries that rose and by no vector: these pins become the own pin, which is `own`, and is that of a
// checkpoint that was stored first, if one was.
pub fn taken_pins(rose: u16, pins: [u16; PROCESSES], i: usize, own: u16) -> [u16; PROCESSES]
    requires { i < most_processes }
    ensures { result ≡ moved_row (risen_or_own rose i) pins own }
{
    move_pins(rose | bit(i), pins, own)
}
