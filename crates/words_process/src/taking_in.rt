// Taking a carried vector in (document 02, Notes 1 and 3): a step for each entry, ascending.
ghost use Rattle.std.specs.Prelude.{◌≡◌, ◌∷◌, ◌+◌, ◌^◌, ◌≤◌, ◌<◌};
ghost use Rattle.laws.specs.Basics.{[], length, pick};
ghost use Rattle.model.specs.{Words.below, Words.most_processes, Steps.taken_vector, Steps.risen};
ghost use Rattle.words.specs.{Layout.vector_in, Puts.puts, Puts.one, Puts.vector_put};
ghost use Rattle.words_process.specs.TakingIn.{taken_word, risen_bit};

use model::{Interval, PROCESSES};
use words::rows::vector;

// What entry f adds to the set: its bit, worth 2 to the power f, if it rises.
fn bit_if_risen(own: Interval, carried: Interval, f: usize) -> u16
    requires { f < most_processes }
    ensures { result ≡ pick (below own carried) (2 ^ f) 0 }
{
    let risen = vector::rises(own, carried);
    if risen { 1u16 << f } else { 0 }
}

// The step for entry f: the entry takes the greater of the two, and its bit comes to the set if it rises. It is handed the vector, at its place in the words, and
// the set as they stand, and no older vector.
fn take_entry(w: &mut [u16], at: usize, rose: u16, carried: [Interval; PROCESSES], f: usize) -> u16
    requires { (at + most_processes ≤ length w.old) × (f < most_processes) × (rose < 2 ^ f) }
    ensures w_after { w.new ≡ puts w.old (one (at + f) (taken_word w.old at carried f) ∷ []) }
    ensures value { (result ≡ rose + risen_bit w.old at carried f) × (result < 2 ^ (f + 1)) }
{
    let own = words::interval_of(w[at + f]);
    let other = carried[f];
    let most = vector::greater(own, other);
    w[at + f] = most.0;
    rose | bit_if_risen(own, other, f)
}

// The vector at a place takes the carried one in. The result is the set of the entries that rose.
pub fn take_in(w: &mut [u16], at: usize, carried: [Interval; PROCESSES]) -> u16
    requires { at + most_processes ≤ length w.old }
    ensures w_after { w.new ≡ puts w.old (vector_put at (taken_vector (vector_in w.old at) carried) ∷ []) }
    ensures value { result ≡ risen (vector_in w.old at) carried }
{
    let mut rose: u16 = 0;
    for f in 0..PROCESSES {
        let more = take_entry(w, at, rose, carried, f);
        rose = more;
    }
    rose
}
