// The state that words stand for, by value.
ghost use Rattle.std.specs.Prelude.{◌≡◌, ◌+◌, ◌≤◌, ◌<◌};
ghost use Rattle.laws.specs.Basics.{false, length};
ghost use Rattle.laws.specs.Lists.{placed};
ghost use Rattle.model.specs.Words.{most_under_way, zero_vector, no_pins_of, no_message, most_processes};
ghost use Rattle.words.specs.Layout.{word, wide4, count_of, end_of, kept_count_at_of, part_at, pins_at_of, index_at_of, cause_at_of, vector_in, pins_in, mark_in, checkpoint_in, is_kept_in, message_in, messages_in, of_processes, run_of, state_size};
ghost use Rattle.library_calls.specs.run_words.Readable.{Readable, after_messages};

use model::{Checkpoint, Disk, Interval, MESSAGES, Message, PROCESSES, Pin, Run};
use words::places;

fn pins_at(w: &[u16], at: usize) -> [Pin; PROCESSES]
    requires { at + most_processes ≤ length w.now }
    ensures { result ≡ pins_in w.now at }
{
    let none = None;
    let mut pins = [none; PROCESSES];
    for f in 0..PROCESSES {
        let pin = words::pin_of(w[at + f]);
        pins[f] = pin;
    }
    pins
}

// A word as a number that counts or names a place.
fn number_of(x: u16) -> usize
    ensures { result ≡ x }
{
    x as usize
}

fn cause_of(x: u16) -> u8
    requires { x < 256 }
    ensures { result ≡ x }
{
    x as u8
}

fn checkpoint_at(w: &[u16], p: usize, k: usize) -> Checkpoint
    requires { (length w.now ≡ state_size) × (p < most_processes) × (k < most_processes) × (1 ≤ word w.now (index_at_of p k)) × (word w.now (cause_at_of p k) < 256) }
    ensures { result ≡ checkpoint_in w.now p k }
{
    let index = words::index_of(w[places::INDEXES + places::PART * p + k]);
    let vector = words::vector_at(w, places::STORED + places::PART * p + places::ROW * k);
    let cause = cause_of(w[places::CAUSES + places::PART * p + k]);
    Checkpoint {
        index,
        vector,
        cause,
        blocks: w[places::BLOCKS + p],
    }
}

fn is_kept(w: &[u16], p: usize, k: usize) -> bool
    requires { (length w.now ≡ state_size) × (p < most_processes) × (k < most_processes) }
    ensures { result ≡ is_kept_in w.now p k }
{
    let kept_count = number_of(w[places::KEPT + p]);
    (k < kept_count) & (w[places::INDEXES + places::PART * p + k] != 0)
}

fn message_at(w: &[u16], k: usize) -> Message
    requires { (length w.now ≡ state_size) × (k < most_under_way) }
    ensures { result ≡ message_in w.now k }
{
    let number = words::messages::number_at(w, k);
    let vector = words::vector_at(w, places::CARRIED + places::ROW * k);
    let sender = number_of(w[places::SENDERS + k]);
    let receiver = number_of(w[places::RECEIVERS + k]);
    Message {
        number,
        sender,
        receiver,
        vector,
    }
}

fn no_message() -> Message
    ensures { result ≡ no_message }
{
    let vector = words::rows::start::zero_vector();
    Message {
        number: 0,
        sender: 0,
        receiver: 0,
        vector,
    }
}

fn messages_of(w: &[u16], end: usize) -> [Message; MESSAGES]
    requires { (length w.now ≡ state_size) × (end ≡ end_of w.now) × (end ≤ most_under_way) }
    ensures { result ≡ placed most_under_way no_message (messages_in w.now) }
{
    let none = no_message();
    let mut messages = [none; MESSAGES];
    let mut many = 0;
    for k in 0..end {
        let x = message_at(w, k);
        if x.number != 0 {
            messages[many] = x;
            many = many + 1;
        }
    }
    messages
}

fn vectors_of(w: &[u16], n: usize) -> [[Interval; PROCESSES]; PROCESSES]
    requires { (length w.now ≡ state_size) × (n ≡ count_of w.now) × (n ≤ most_processes) }
    ensures { result ≡ of_processes w.now (λ p. vector_in w.now (part_at p)) zero_vector }
{
    let zeros = words::rows::start::zero_vector();
    let mut vectors = [zeros; PROCESSES];
    for p in 0..n {
        let vector = words::vector_at(w, places::PARTS + places::PART * p);
        vectors[p] = vector;
    }
    vectors
}

fn pins_of(w: &[u16], n: usize) -> [[Pin; PROCESSES]; PROCESSES]
    requires { (length w.now ≡ state_size) × (n ≡ count_of w.now) × (n ≤ most_processes) }
    ensures { result ≡ of_processes w.now (λ p. pins_in w.now (pins_at_of p)) no_pins_of }
{
    let none = words::rows::start::no_pins();
    let mut pins = [none; PROCESSES];
    for p in 0..n {
        let row = pins_at(w, places::PINS + places::PART * p);
        pins[p] = row;
    }
    pins
}

fn kept_count_of(w: &[u16], n: usize) -> [usize; PROCESSES]
    requires { (length w.now ≡ state_size) × (n ≡ count_of w.now) × (n ≤ most_processes) }
    ensures { result ≡ of_processes w.now (λ p. word w.now (kept_count_at_of p)) 0 }
{
    let mut kept_count = [0usize; PROCESSES];
    for p in 0..n {
        let many = number_of(w[places::KEPT + p]);
        kept_count[p] = many;
    }
    kept_count
}

fn marks_of(w: &[u16], n: usize) -> [bool; PROCESSES]
    requires { (length w.now ≡ state_size) × (n ≡ count_of w.now) × (n ≤ most_processes) }
    ensures { result ≡ of_processes w.now (mark_in w.now) false }
{
    let mut sent = [false; PROCESSES];
    for p in 0..n {
        sent[p] = w[places::MARKS + p] != 0;
    }
    sent
}

fn disk_of(w: &[u16]) -> Disk
    requires { length w.now ≡ state_size }
    ensures { result ≡ record { written = wide4 w.now 4; deleted = wide4 w.now 8 } }
{
    let written = words::wide4(w, places::WRITTEN);
    let deleted = words::wide4(w, places::DELETED);
    Disk { written, deleted }
}

// The places of kept checkpoints are filled here and last, right before they go into the state: a function that returns them costs two more copies of 9,728 bytes.
// The row of unused places is stored into at a place that is not known before the run: the compiler then copies it whole, and not each number of it.
pub fn read(w: &[u16]) -> Run
    requires { Readable w.now }
    ensures { result ≡ run_of w.now }
{
    let n = number_of(w[places::COUNT]);
    let vectors = words::rows::squares::vectors_from(vectors_of(w, n));
    let pins = words::rows::squares::pins_from(pins_of(w, n));
    let sent = marks_of(w, n);
    let kept_count = kept_count_of(w, n);
    let end = number_of(w[places::END]);
    let messages = messages_of(w, end);
    let disk = disk_of(w);
    let last = words::wide2(w, places::LAST);
    let underway = number_of(w[places::UNDER_WAY]);
    let none = words::rows::start::no_checkpoint();
    let mut row = [none; PROCESSES];
    row[end % PROCESSES] = none;
    let mut table = [row; PROCESSES];
    for q in 0..PROCESSES * n {
        let p = q / PROCESSES;
        let k = q % PROCESSES;
        let used = is_kept(w, p, k);
        if used {
            let c = checkpoint_at(w, p, k);
            table[p][k] = c;
        }
    }
    let kept = words::rows::squares::kept_from(table);
    Run {
        count: n,
        vectors,
        pins,
        sent,
        kept,
        kept_count,
        messages,
        underway,
        last,
        disk,
    }
}

// What a send or a loss changes, read back: the sent marks, the messages and the last number. The rest comes from the state that the words were filled from.
pub fn read_messages(w: &[u16], s: Run) -> Run
    requires { Readable w.now × (run_of w.now ≡ after_messages s (run_of w.now)) }
    ensures { result ≡ run_of w.now }
{
    let sent = marks_of(w, s.count);
    let end = number_of(w[places::END]);
    let messages = messages_of(w, end);
    let last = words::wide2(w, places::LAST);
    let underway = number_of(w[places::UNDER_WAY]);
    Run {
        sent,
        messages,
        underway,
        last,
        ..s
    }
}
