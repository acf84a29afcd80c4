// Words filled from a state. A state fits its words if, read back, it is the same: specs/Fits says when, and a sound one does. Where it does not fit, the words stand for no
// sound state either, so that a call in place refuses them as it would the state. One pass puts each thing and tests it, so that each is read once.
ghost use Rattle.std.specs.Prelude.{◌≡◌, ◌&&◌, ◌∷◌, ◌+◌, ◌≤◌, ◌<◌, None};
ghost use Rattle.laws.specs.Basics.{true, [], leb, length, get_or, pick};
ghost use Rattle.laws.specs.{Loops.iter, Search.all_below};
ghost use Rattle.model.specs.Sound.{zero_from, is_nothing_of, nothing_from, unused_checkpoint, unused_message};
ghost use Rattle.model.specs.Words.{most_processes, most_under_way, kept_places};
ghost use Rattle.words.specs.{Layout.state_size, Puts.puts};
ghost use Rattle.library_calls.specs.run_words.Fits.{index_fits, pin_fits, message_fits, place_fits, kept_fits, row_fits_of, rows_fit_of, one_fits, messages_fit_of};
ghost use Rattle.library_calls.specs.run_words.Filled.{pin_word, pins_put, mark_word_of, checkpoint_puts, place_filled, kept_filled, process_puts, row_filled, rows_filled, message_puts, one_filled, messages_filled, number_puts, FilledFrom};

use model::{
    Checkpoint, CheckpointIndex, Disk, Interval, LAST_INTERVAL, MESSAGES, Message, PROCESSES, Pin,
    Run,
};
use words::places;

// The index that no word is one above.
const NO_WORD: u16 = LAST_INTERVAL;

// One above the greatest word.
const WORD: usize = 65536;

// How many places the kept checkpoints of all processes have.
const PLACES: usize = PROCESSES * PROCESSES;

fn is_index_fit(index: CheckpointIndex) -> bool
    ensures { result ≡ index_fits index }
{
    index.0 != NO_WORD
}

fn is_pin_fit(pin: Pin) -> bool
    ensures { result ≡ pin_fits pin }
{
    match pin {
        None => true,
        Some(a) => is_index_fit(a),
    }
}

fn word_of_index(index: CheckpointIndex) -> u16
    ensures { result ≡ pick (index_fits index) (index.0 + 1) 0 }
{
    if index.0 != NO_WORD { index.0 + 1 } else { 0 }
}

fn word_of_pin(pin: Pin) -> u16
    ensures { result ≡ pin_word pin }
{
    match pin {
        None => 0,
        Some(a) => word_of_index(a),
    }
}

fn put_pins(w: &mut [u16], at: usize, pins: [Pin; PROCESSES]) -> bool
    requires { at + most_processes ≤ length w.old }
    ensures { (result ≡ all_below most_processes (λ f. pin_fits (get_or pins f None))) × (w.new ≡ puts w.old (pins_put at pins ∷ [])) }
{
    let mut all = true;
    for f in 0..PROCESSES {
        let pin = pins[f];
        let x = word_of_pin(pin);
        w[at + f] = x;
        let fit = is_pin_fit(pin);
        all = all & fit;
    }
    all
}

// What has to be zero is gathered with `|` in one word: a processor then tests several words at a time.
fn is_zero(vector: [Interval; PROCESSES]) -> bool
    ensures { result ≡ zero_from 0 vector }
{
    let mut any: u16 = 0;
    for f in 0..PROCESSES {
        let x = vector[f];
        any = any | x.0;
    }
    any == 0
}

fn is_nothing(pin: Pin) -> bool
    ensures { result ≡ is_nothing_of pin }
{
    match pin {
        None => true,
        Some(a) => false,
    }
}

fn are_nothing(pins: [Pin; PROCESSES]) -> bool
    ensures { result ≡ nothing_from 0 pins }
{
    let mut all = true;
    for f in 0..PROCESSES {
        let pin = pins[f];
        let nothing = is_nothing(pin);
        all = all & nothing;
    }
    all
}

fn is_unused(c: Checkpoint) -> bool
    ensures { result ≡ unused_checkpoint c }
{
    let index = c.index;
    let vector = c.vector;
    let zero = is_zero(vector);
    (index.0 == 0) & zero & (c.cause == 0) & (c.blocks == 0)
}

fn put_checkpoint(w: &mut [u16], p: usize, k: usize, c: Checkpoint)
    requires { (length w.old ≡ state_size) × (p < most_processes) × (k < most_processes) × (index_fits c.index ≡ true) }
    ensures { w.new ≡ puts w.old (checkpoint_puts p k c) }
{
    let index = c.index;
    let vector = c.vector;
    let x = words::pin_word(index);
    w[places::INDEXES + places::PART * p + k] = x;
    w[places::CAUSES + places::PART * p + k] = c.cause as u16;
    words::put_vector(
        w,
        places::STORED + places::PART * p + places::ROW * k,
        vector,
    );
}

fn put_place(
    w: &mut [u16],
    p: usize,
    k: usize,
    c: Checkpoint,
    kept_count: usize,
    blocks: u16,
) -> bool
    requires { (length w.old ≡ state_size) × (p < most_processes) × (k < most_processes) }
    ensures { (result ≡ place_fits k kept_count blocks c) × (w.new ≡ place_filled p k kept_count c w.old) }
{
    if k < kept_count {
        let fit = is_index_fit(c.index);
        if !fit {
            return false;
        }
        put_checkpoint(w, p, k, c);
        return c.blocks == blocks;
    }
    is_unused(c)
}

fn put_kept(
    w: &mut [u16],
    kept: [[Checkpoint; PROCESSES]; PROCESSES],
    kept_count: [usize; PROCESSES],
) -> bool
    requires { length w.old ≡ state_size }
    ensures { (result ≡ kept_fits kept kept_count) × (w.new ≡ iter kept_places (kept_filled kept kept_count) w.old) }
{
    let mut all = true;
    for q in 0..PLACES {
        let p = q / PROCESSES;
        let k = q % PROCESSES;
        let c = kept[p][k];
        let first = kept[p][0];
        w[places::BLOCKS + p] = first.blocks;
        let fit = put_place(w, p, k, c, kept_count[p], first.blocks);
        all = all & fit;
    }
    all
}

fn mark_word(mark: bool) -> u16
    ensures { result ≡ mark_word_of mark }
{
    if mark { 1 } else { 0 }
}

fn put_process(
    w: &mut [u16],
    p: usize,
    vector: [Interval; PROCESSES],
    pins: [Pin; PROCESSES],
    kept_count: usize,
    mark: bool,
) -> bool
    requires { (length w.old ≡ state_size) × (p < most_processes) × (kept_count ≤ most_processes) }
    ensures { (result ≡ all_below most_processes (λ f. pin_fits (get_or pins f None))) × (w.new ≡ puts w.old (process_puts p vector pins kept_count mark)) }
{
    words::put_vector(w, places::PARTS + places::PART * p, vector);
    let fit = put_pins(w, places::PINS + places::PART * p, pins);
    w[places::KEPT + p] = kept_count as u16;
    let x = mark_word(mark);
    w[places::MARKS + p] = x;
    fit
}

fn put_row(
    w: &mut [u16],
    p: usize,
    n: usize,
    vector: [Interval; PROCESSES],
    pins: [Pin; PROCESSES],
    kept_count: usize,
    mark: bool,
) -> bool
    requires { (length w.old ≡ state_size) × (p < most_processes) }
    ensures { (result ≡ row_fits_of p n vector pins kept_count mark) × (w.new ≡ row_filled p n vector pins kept_count mark w.old) }
{
    if p < n {
        if PROCESSES < kept_count {
            return false;
        }
        return put_process(w, p, vector, pins, kept_count, mark);
    }
    let zero = is_zero(vector);
    let nothing = are_nothing(pins);
    zero & nothing & (kept_count == 0) & !mark
}

fn put_rows(
    w: &mut [u16],
    n: usize,
    vectors: [[Interval; PROCESSES]; PROCESSES],
    pins: [[Pin; PROCESSES]; PROCESSES],
    kept_count: [usize; PROCESSES],
    sent: [bool; PROCESSES],
) -> bool
    requires { length w.old ≡ state_size }
    ensures { (result ≡ rows_fit_of n vectors pins kept_count sent) × (w.new ≡ iter most_processes (rows_filled n vectors pins kept_count sent) w.old) }
{
    let mut all = true;
    for p in 0..PROCESSES {
        let vector = vectors[p];
        let row = pins[p];
        let mark = sent[p];
        let fit = put_row(w, p, n, vector, row, kept_count[p], mark);
        all = all & fit;
    }
    all
}

fn is_message_fit(x: Message) -> bool
    ensures { result ≡ message_fits x }
{
    (x.number != 0) & (x.sender < WORD) & (x.receiver < WORD)
}

fn is_message_unused(x: Message) -> bool
    ensures { result ≡ unused_message x }
{
    let vector = x.vector;
    let zero = is_zero(vector);
    (x.number == 0) & (x.sender == 0) & (x.receiver == 0) & zero
}

fn put_message(w: &mut [u16], k: usize, x: Message)
    requires { (length w.old ≡ state_size) × (k < most_under_way) × (x.sender < 65536) × (x.receiver < 65536) }
    ensures { w.new ≡ puts w.old (message_puts k x) }
{
    let number = x.number;
    let vector = x.vector;
    w[places::LOWS + k] = (number % 65536) as u16;
    w[places::HIGHS + k] = (number / 65536) as u16;
    w[places::SENDERS + k] = x.sender as u16;
    w[places::RECEIVERS + k] = x.receiver as u16;
    words::put_vector(w, places::CARRIED + places::ROW * k, vector);
}

fn put_one(w: &mut [u16], k: usize, x: Message, many: usize) -> bool
    requires { (length w.old ≡ state_size) × (k < most_under_way) }
    ensures { (result ≡ one_fits k many x) × (w.new ≡ one_filled k many x w.old) }
{
    if k < many {
        let fit = is_message_fit(x);
        if !fit {
            return false;
        }
        put_message(w, k, x);
        return true;
    }
    is_message_unused(x)
}

fn put_messages(w: &mut [u16], messages: [Message; MESSAGES], many: usize) -> bool
    requires { length w.old ≡ state_size }
    ensures { (result ≡ messages_fit_of many messages) × (w.new ≡ iter most_under_way (messages_filled many messages) w.old) }
{
    let mut all = true;
    for k in 0..MESSAGES {
        let x = messages[k];
        let fit = put_one(w, k, x, many);
        all = all & fit;
    }
    all
}

fn put_numbers(w: &mut [u16], n: usize, many: usize, last: u32, disk: Disk)
    requires { (length w.old ≡ state_size) × (n ≤ most_processes) × (many ≤ most_under_way) }
    ensures { w.new ≡ puts w.old (number_puts n many last disk) }
{
    w[places::COUNT] = n as u16;
    w[places::UNDER_WAY] = many as u16;
    words::put2(w, places::LAST, last);
    words::put4(w, places::WRITTEN, disk.written);
    words::put4(w, places::DELETED, disk.deleted);
    w[places::END] = many as u16;
}

// Whether there are places for so many processes and messages.
pub fn are_counts_fit(n: usize, many: usize) -> bool
    ensures { result ≡ (leb n most_processes && leb many most_under_way) }
{
    (n <= PROCESSES) & (many <= MESSAGES)
}

// The count that the words get: 0 for a state that does not fit them, so that they stand for no sound state.
fn count_for(n: usize, fit: bool) -> usize
    ensures { result ≡ pick fit n 0 }
{
    if fit { n } else { 0 }
}

pub fn fill(w: &mut [u16], s: Run)
    requires { (length w.old ≡ state_size) × (s.count ≤ most_processes) × (s.underway ≤ most_under_way) }
    ensures { FilledFrom s w.new }
{
    let n = s.count;
    let many = s.underway;
    let sent = s.sent;
    let kept_count = s.kept_count;
    let messages = s.messages;
    let vectors = words::rows::squares::vector_rows(s.vectors);
    let pins = words::rows::squares::pin_rows(s.pins);
    let kept = words::rows::squares::kept_rows(s.kept);
    let places_fit = put_kept(w, kept, kept_count);
    let rows_fit = put_rows(w, n, vectors, pins, kept_count, sent);
    let messages_fit = put_messages(w, messages, many);
    let count = count_for(n, places_fit & rows_fit & messages_fit);
    put_numbers(w, count, many, s.last, s.disk);
}
