// A process goes back to a stored checkpoint; its pins once all processes have gone back.
ghost use Rattle.std.specs.Prelude.{◌≡◌, ◌∷◌, ◌+◌, ◌≤◌, ◌<◌};
ghost use Rattle.laws.specs.Basics.{[], eqb, length, pick};
ghost use Rattle.model.specs.{Words.below, Words.most_processes, Words.most_interval, Steps.advanced};
ghost use Rattle.words.specs.Layout.{word, mark_at, part_at, stored_at, vector_in, state_size};
ghost use Rattle.words.specs.Puts.{puts, one, vector_put};
ghost use Rattle.words_line.specs.Restored.{known_row, found_row, found_in_of};

use model::{Interval, PROCESSES};
use words::places;

fn known_pin(known: Interval, own: Interval, pin: u16) -> u16
    ensures { result ≡ pick (eqb known.0 own.0) pin 0 }
{
    if known.0 == own.0 { pin } else { 0 }
}

// "a pin for f whose vector entry is not own(f) becomes none". Every iteration stores its pin: such a loop takes several pins at a time.
pub fn known_pins(
    vector: [Interval; PROCESSES],
    owns: [Interval; PROCESSES],
    pins: [u16; PROCESSES],
) -> [u16; PROCESSES]
    ensures { result ≡ known_row vector owns pins }
{
    let mut then = [0u16; PROCESSES];
    for f in 0..PROCESSES {
        let known = vector[f];
        let own = owns[f];
        let pin = known_pin(known, own, pins[f]);
        then[f] = pin;
    }
    then
}

fn later_of(known: Interval, own: Interval, old: u16, word: u16) -> u16
    ensures { result ≡ pick (below known own) word old }
{
    if known.0 < own.0 { word } else { old }
}

// What is found with one checkpoint more, later than all before it: its word for each f whose own entry is above its entry f.
fn found_with(
    found: [u16; PROCESSES],
    vector: [Interval; PROCESSES],
    owns: [Interval; PROCESSES],
    word: u16,
) -> [u16; PROCESSES]
    ensures { result ≡ found_row found vector owns word }
{
    let mut then = [0u16; PROCESSES];
    for f in 0..PROCESSES {
        let known = vector[f];
        let own = owns[f];
        let later = later_of(known, own, found[f], word);
        then[f] = later;
    }
    then
}

// For each f the word of the latest of the first `many` checkpoints "with entry f below own(f)", 0 if there is none.
pub fn find_latest(
    w: &[u16],
    p: usize,
    many: usize,
    owns: [Interval; PROCESSES],
) -> [u16; PROCESSES]
    requires { (length w.now ≡ state_size) × (p < most_processes) × (many ≤ most_processes) }
    ensures { result ≡ found_in_of w.now owns p many }
{
    let mut found = [0u16; PROCESSES];
    for k in 0..many {
        let vector = words::vector_at(w, places::STORED + places::PART * p + places::ROW * k);
        let further = found_with(
            found,
            vector,
            owns,
            w[places::INDEXES + places::PART * p + k],
        );
        found = further;
    }
    found
}

// "A process whose member is stored takes that vector with 1 added to its own entry, loses its sent mark": it goes back to the checkpoint in this place.
pub fn roll_back(w: &mut [u16], p: usize, place: usize)
    requires { (length w.old ≡ state_size) × (p < most_processes) × (place < most_processes) × (word w.old (stored_at p place + p) < most_interval) }
    ensures { w.new ≡ puts w.old (vector_put (part_at p) (advanced p (vector_in w.old (stored_at p place))) ∷ one (mark_at p) 0 ∷ []) }
{
    let vector = words::vector_at(w, places::STORED + places::PART * p + places::ROW * place);
    let back = words::rows::vector::advanced(vector, p);
    words::put_vector(w, places::PARTS + places::PART * p, back);
    w[places::MARKS + p] = 0;
}
