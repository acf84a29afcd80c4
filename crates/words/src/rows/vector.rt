// Dependency vectors: what a checkpoint and a receipt do to one, and which checkpoint is the last one stored.
ghost use Rattle.std.specs.Prelude.{◌≡◌, ◌+◌, ◌≤◌, ◌<◌};
ghost use Rattle.laws.specs.Basics.{pick};
ghost use Rattle.model.specs.declared.Interval.{Interval};
ghost use Rattle.model.specs.Words.{entry, below, last_stored_of, live_index_of, most_processes, most_interval};
ghost use Rattle.model.specs.Steps.{advanced, newer, taken_vector};

use model::{CheckpointIndex, Interval, PROCESSES};

// The last stored checkpoint of a process whose own entry is `own`. This is the one place where an interval's number becomes a checkpoint's index.
pub fn last_stored(own: Interval) -> CheckpointIndex
    ensures { result ≡ last_stored_of own }
{
    if own.0 == 0 {
        CheckpointIndex(0)
    } else {
        CheckpointIndex(own.0 - 1)
    }
}

// The index under which a checkpoint is stored now, which is also the live state's: one above the last stored one. Own entries are at least 1 from
// the start on.
pub fn live_index(own: Interval) -> CheckpointIndex
    requires { 1 ≤ own.0 }
    ensures { result ≡ live_index_of own }
{
    let last = last_stored(own);
    CheckpointIndex(last.0 + 1)
}

// v with 1 added to entry i. The caller has refused a checkpoint at 65,535.
pub fn advanced(v: [Interval; PROCESSES], i: usize) -> [Interval; PROCESSES]
    requires { (i < most_processes) × ((entry v i).0 < most_interval) }
    ensures { result ≡ advanced i v }
{
    let own = v[i];
    let mut w = v;
    w[i] = Interval(own.0 + 1);
    w
}

// Whether an own entry rises as the carried one is taken in. This is the one place where the two are compared.
pub fn rises(own: Interval, carried: Interval) -> bool
    ensures { result ≡ below own carried }
{
    own.0 < carried.0
}

// Some entry rises.
pub fn is_newer(own: [Interval; PROCESSES], carried: [Interval; PROCESSES]) -> bool
    ensures { result ≡ newer own carried }
{
    let mut any = false;
    for f in 0..PROCESSES {
        let x = own[f];
        let y = carried[f];
        let risen = rises(x, y);
        if risen {
            any = true;
        }
    }
    any
}

// The greater of an own entry and the carried one.
pub fn greater(own: Interval, carried: Interval) -> Interval
    ensures { result ≡ pick (below own carried) carried own }
{
    let risen = rises(own, carried);
    if risen { carried } else { own }
}

// The greater of two vectors at each entry. Every iteration stores its entry, changed or not: such a loop takes several entries at a time.
pub fn greatest(a: [Interval; PROCESSES], b: [Interval; PROCESSES]) -> [Interval; PROCESSES]
    ensures { result ≡ taken_vector a b }
{
    let mut most = a;
    for f in 0..PROCESSES {
        let x = a[f];
        let y = b[f];
        let z = greater(x, y);
        most[f] = z;
    }
    most
}
