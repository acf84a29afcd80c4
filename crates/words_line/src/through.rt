// The earliest consistent line through named checkpoints (document 02, Note 8), of which each process keeps one at most. They are pairs of numbers in a lent slice:
// process, index, process, index, and so on. Numbers of which one is left over are no pairs, and name nothing.
ghost use Rattle.std.specs.Prelude.{◌≡◌, ◌||◌, ◌+◌, ◌-◌, ◌*◌, ◌≤◌, ◌<◌};
ghost use Rattle.laws.specs.Basics.{eqb, ltb, leb, length, sets};
ghost use Rattle.laws.specs.{Lists.table, Search.any_below};
ghost use Rattle.model.specs.Words.{most_processes};
ghost use Rattle.words.specs.Layout.{word, kept_count_at_of, state_size};
ghost use Rattle.words_line.specs.Line.{KeptUsed};
ghost use Rattle.words_line.specs.Through.{pair_count_of, process_of, index_of_def, among_first, twice_in, start_of, starts_in, before_some, greatest_in, Present, Searched, InWords};

use model::PROCESSES;
use words::places;

// How many pairs that many numbers make.
pub fn pair_count(length: usize) -> usize
    ensures { result ≡ pair_count_of length }
{
    if length % 2 == 1 { 0 } else { length / 2 }
}

// One of m pairs names a process that is not below n.
pub fn names_absent(named: &[u32], m: usize, n: usize) -> bool
    requires { (2 * m ≤ length named.now) × (n ≤ most_processes) }
    ensures { result ≡ any_below m (λ k. leb n (process_of named.now k)) }
{
    let most = n as u32;
    let mut any = false;
    for k in 0..m {
        any = any | (most <= named[2 * k]);
    }
    any
}

// One of the first m pairs names process p.
fn is_among(named: &[u32], m: usize, p: u32) -> bool
    requires { 2 * m ≤ length named.now }
    ensures { result ≡ among_first named.now m p }
{
    let mut any = false;
    for k in 0..m {
        any = any | (named[2 * k] == p);
    }
    any
}

// Two of m pairs name one process.
fn names_twice(named: &[u32], m: usize) -> bool
    requires { 2 * m ≤ length named.now }
    ensures { result ≡ twice_in named.now m }
{
    let mut any = false;
    for k in 0..m {
        let twice = is_among(named, k, named[2 * k]);
        any = any | twice;
    }
    any
}

// "a list that is empty, longer than n or names a process twice"
pub fn is_unfit(named: &[u32], m: usize, n: usize) -> bool
    requires { 2 * m ≤ length named.now }
    ensures { result ≡ (eqb m 0 || ltb n m || twice_in named.now m) }
{
    if m == 0 {
        return true;
    }
    if n < m {
        return true;
    }
    names_twice(named, m)
}

// The word is that of this index.
fn is_index(word: u16, index: u32) -> bool
    requires { 1 ≤ word }
    ensures { result ≡ eqb (word - 1) index }
{
    let kept = words::index_of(word);
    kept.0 as u32 == index
}

// Where the vector of the checkpoint of process p with this index starts, 0 if p does not keep it.
fn find_start(w: &[u16], p: usize, index: u32) -> usize
    requires { (length w.now ≡ state_size) × (p < most_processes) × (word w.now (kept_count_at_of p) ≤ most_processes) × KeptUsed p w.now }
    ensures { result ≡ start_of w.now p index (word w.now (kept_count_at_of p)) }
{
    let kept_count = w[places::KEPT + p] as usize;
    let mut start = 0;
    for k in 0..kept_count {
        let here = is_index(w[places::INDEXES + places::PART * p + k], index);
        if here {
            start = places::STORED + places::PART * p + places::ROW * k;
        }
    }
    start
}

// Where the vectors of the checkpoints that m pairs name start. `all` says whether each is kept.
#[derive(Clone, Copy)]
pub struct Starts {
    pub all: bool,
    pub starts: [u16; PROCESSES],
}

pub fn find_starts(w: &[u16], named: &[u32], m: usize) -> Starts
    requires { (length w.now ≡ state_size) × (2 * m ≤ length named.now) × (m ≤ most_processes) × Searched m named.now w.now }
    ensures { result ≡ starts_in w.now named.now m }
{
    let mut starts = [0u16; PROCESSES];
    let mut all = true;
    for k in 0..m {
        let start = find_start(w, named[2 * k] as usize, named[2 * k + 1]);
        starts[k] = start as u16;
        all = all & (start != 0);
    }
    Starts { all, starts }
}

// Checkpoint `index` of process p comes causally before one of m states, whose vectors start at these words.
fn is_before_some(w: &[u16], p: usize, index: u32, starts: [u16; PROCESSES], m: usize) -> bool
    requires { (length w.now ≡ state_size) × (p < most_processes) × (m ≤ most_processes) × InWords starts m }
    ensures { result ≡ before_some w.now starts m p index }
{
    let mut any = false;
    for k in 0..m {
        let known = words::interval_of(w[starts[k] as usize + p]);
        any = any | (index < known.0 as u32);
    }
    any
}

// One of the checkpoints that m pairs name comes causally before one of them.
pub fn is_ordered(w: &[u16], named: &[u32], starts: [u16; PROCESSES], m: usize) -> bool
    requires { (length w.now ≡ state_size) × (2 * m ≤ length named.now) × (m ≤ most_processes) × Present m named.now × InWords starts m }
    ensures { result ≡ any_below m (λ k. before_some w.now starts m (process_of named.now k) (index_of_def named.now k)) }
{
    let mut any = false;
    for k in 0..m {
        let before = is_before_some(w, named[2 * k] as usize, named[2 * k + 1], starts, m);
        any = any | before;
    }
    any
}

// The greatest of the entries for p of m vectors.
fn greatest_entry(w: &[u16], p: usize, starts: [u16; PROCESSES], m: usize) -> u16
    requires { (length w.now ≡ state_size) × (p < most_processes) × (m ≤ most_processes) × InWords starts m }
    ensures { result ≡ greatest_in w.now starts p m }
{
    let mut most = 0;
    for k in 0..m {
        let known = words::interval_of(w[starts[k] as usize + p]);
        if most < known.0 {
            most = known.0;
        }
    }
    most
}

// At each of n processes the greatest of the entries for it goes into the lent list.
pub fn write_greatest(w: &[u16], starts: [u16; PROCESSES], m: usize, n: usize, line: &mut [u16])
    requires { (length w.now ≡ state_size) × (m ≤ most_processes) × InWords starts m × (n ≤ most_processes) × (n ≤ length line.old) }
    ensures { line.new ≡ sets line.old 0 (table n (λ p. greatest_in w.now starts p m)) }
{
    for p in 0..n {
        line[p] = greatest_entry(w, p, starts, m);
    }
}
