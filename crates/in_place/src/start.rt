// Start: each process stores checkpoint 0 with a vector of zeros, its own entry is then 1, and its own pin names checkpoint 0.
ghost use Rattle.std.specs.Prelude.{◌≡◌, ◌∷◌, ◌≤◌, Ok};
ghost use Rattle.laws.specs.Basics.{true, [], length, get_or};
ghost use Rattle.laws.specs.{Search.all_below, Sums.sum_below};
ghost use Rattle.model.specs.{Sound.is_block_count_of, Words.most_processes};
ghost use Rattle.whole_runs.specs.WholeRuns.{StartPromise};
ghost use Rattle.words.specs.{Layout.run_of, Layout.state_size, Clean.Clean};
ghost use Rattle.in_place.specs.Starting.{zeros, with_counts, with_firsts, started_words, start_outcome_in, start_words};

use model::{MOST_BLOCK_COUNT, PROCESSES, Refusal, StartAnswer};
use words::{WORDS, places};

// The own entry, and the word of checkpoint 0, which its index and the own pin have.
const FIRST: u16 = 1;

fn clear_all(w: &mut [u16])
    requires { length w.old ≡ state_size }
    ensures { w.new ≡ zeros }
{
    for k in 0..WORDS {
        w[k] = 0;
    }
}

// "a block count outside 1 to 65,535"
fn is_block_count(count: u32) -> bool
    ensures { result ≡ is_block_count_of count }
{
    (1 <= count) & (count <= MOST_BLOCK_COUNT)
}

// Each of the first n is a block count.
fn are_block_counts(block_counts: &[u32], n: usize) -> bool
    requires { n ≤ length block_counts.now }
    ensures { result ≡ all_below n (λ p. is_block_count_of (get_or block_counts.now p 0)) }
{
    let mut all = true;
    for p in 0..n {
        let count = block_counts[p];
        let fits = is_block_count(count);
        all = all & fits;
    }
    all
}

// The blocks of n checkpoints, one of each process.
fn sum_of(block_counts: &[u32], n: usize) -> u64
    requires { (n ≤ most_processes) × (n ≤ length block_counts.now) }
    ensures { result ≡ sum_below n (λ p. get_or block_counts.now p 0) }
{
    let mut sum: u64 = 0;
    for p in 0..n {
        let count = block_counts[p];
        sum = sum + count as u64;
    }
    sum
}

fn put_counts(w: &mut [u16], block_counts: &[u32], n: usize)
    requires { (length w.old ≡ state_size) × (n ≤ most_processes) × (n ≤ length block_counts.now) × (all_below n (λ p. is_block_count_of (get_or block_counts.now p 0)) ≡ true) }
    ensures { w.new ≡ with_counts w.old block_counts.now n }
{
    for p in 0..n {
        let count = block_counts[p];
        w[places::BLOCKS + p] = count as u16;
    }
}

// Checkpoint 0 of each process.
fn put_firsts(w: &mut [u16], n: usize)
    requires { (length w.old ≡ state_size) × (n ≤ most_processes) }
    ensures { w.new ≡ with_firsts w.old n }
{
    for p in 0..n {
        w[places::PARTS + places::PART * p + p] = FIRST;
        w[places::PINS + places::PART * p + p] = FIRST;
        w[places::INDEXES + places::PART * p] = FIRST;
        w[places::KEPT + p] = 1;
    }
}

fn put_started(w: &mut [u16], n: usize, block_counts: &[u32])
    requires { (w.old ≡ zeros) × (n ≤ most_processes) × (n ≤ length block_counts.now) × (all_below n (λ p. is_block_count_of (get_or block_counts.now p 0)) ≡ true) }
    ensures { w.new ≡ started_words n block_counts.now }
{
    let written = sum_of(block_counts, n);
    w[places::COUNT] = n as u16;
    put_counts(w, block_counts, n);
    put_firsts(w, n);
    words::put4(w, places::WRITTEN, written);
}

// Whether a start is refused, and why: 1, then 2, 3 and 15.
fn answer_of(many: usize, n: usize, block_counts: &[u32]) -> StartAnswer
    ensures { result ≡ (start_outcome_in many n block_counts.now).answer }
{
    if n < 1 {
        return Err(Refusal::CountOutsideRange);
    }
    if PROCESSES < n {
        return Err(Refusal::CountOutsideRange);
    }
    if many != WORDS {
        return Err(Refusal::UnsoundState);
    }
    if block_counts.len() < n {
        return Err(Refusal::ListTooShort);
    }
    let ok = are_block_counts(block_counts, n);
    if !ok {
        return Err(Refusal::BlockCountOutsideRange);
    }
    Ok(())
}

// A run of n processes with the block count of each: those at n and above are neither judged nor stored. The words of a refused start are zero; those of another
// number are left as they were. Where enough is lent, it is document 01's start (`starts_the_same`). Accepted, what is kept and its blocks are right (demand 3).
pub fn start(w: &mut [u16], n: usize, block_counts: &[u32]) -> StartAnswer
    ensures value { result ≡ (start_outcome_in (length w.old) n block_counts.now).answer }
    ensures w_after { run_of w.new ≡ (start_outcome_in (length w.old) n block_counts.now).run }
    ensures w_after_2 { w.new ≡ start_words w.old n block_counts.now }
    ensures clean { length w.old ≡ state_size → Clean w.new }
    ensures start_promise { result ≡ Ok tt → StartPromise n block_counts.now (run_of w.new) }
{
    let many = w.len();
    let answer = answer_of(many, n, block_counts);
    if many != WORDS {
        return answer;
    }
    clear_all(w);
    match answer {
        Err(why) => Err(why),
        Ok(()) => {
            put_started(w, n, block_counts);
            Ok(())
        }
    }
}
