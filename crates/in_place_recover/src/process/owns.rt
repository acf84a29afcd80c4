// "Then let own(f) be the own entries after this": of each process, by the place of its member in the line.
ghost use Rattle.std.specs.Prelude.{◌≡◌, ◌≤◌, ◌<◌};
ghost use Rattle.laws.specs.Basics.{length};
ghost use Rattle.words.specs.Layout.{state_size};
ghost use Rattle.model.specs.Words.{most_processes};
ghost use Rattle.in_place_recover.specs.Restored.{restored_own, owns_after_of, Returns, AllReturn};

use model::{Interval, PROCESSES};
use words::places;

// The own entry of process p, whose member is in the place before this one. Where there is no member, the place is 0, and the answer is the live entry.
fn own_then(w: &[u16], p: usize, past: usize) -> Interval
    requires { (length w.now ≡ state_size) × (p < most_processes) × (1 ≤ past → Returns w.now p past) }
    ensures { result ≡ restored_own w.now p past }
{
    let kept_count = w[places::KEPT + p] as usize;
    if (0 < past) & (past <= kept_count) {
        let stored = w[places::STORED + places::PART * p + places::ROW * (past - 1) + p];
        words::interval_of(stored + 1)
    } else {
        words::interval_of(w[places::PARTS + places::PART * p + p])
    }
}

// Those at all 16 places: at n and above they are of no use, but a loop of 16 iterations is unrolled, and its row stays in registers. A loop of n iterations stores the
// row word by word, and a read of the whole row waits for these stores.
pub fn owns_after(w: &[u16], pasts: &[u16]) -> [Interval; PROCESSES]
    requires { (length w.now ≡ state_size) × AllReturn pasts.now w.now }
    ensures { result ≡ owns_after_of w.now pasts.now }
{
    let mut owns = [Interval(0); PROCESSES];
    for p in 0..PROCESSES {
        let past = pasts[p] as usize;
        let own = own_then(w, p, past);
        owns[p] = own;
    }
    owns
}
