// What is read of the words, each by one reader: what it reads goes to the front of the list that it is lent, and the rest of the list is unchanged. Refused are words
// that stand for no sound state (2), a list that is too short (3), a process not below n (4), a failed set with a process not below n (7) and a message not under
// way (8): then the list keeps every entry.
ghost use Rattle.std.specs.Prelude.{◌≡◌};
ghost use Rattle.listing.specs.answers.Codes.{coded};
ghost use Rattle.words.specs.Layout.{run_of};
ghost use Rattle.library_readers.specs.Readings.{numbers_reading, vector_reading, pins_reading, kept_reading, messages_reading, carried_reading, lost_reading};

// The number of the answer to words that stand for no sound state.
const UNSOUND: u64 = 2;

// The five numbers of the run: n, the last message number used, how many messages are under way, the blocks written and the blocks deleted.
#[unsafe(no_mangle)]
pub extern "C" fn lemidrosy_numbers(words: &[u16], numbers: &mut [u64]) -> u64
    ensures value { result ≡ coded (numbers_reading (run_of words.now) numbers.old).report 0 }
    ensures numbers_after { numbers.new ≡ (numbers_reading (run_of words.now) numbers.old).list }
{
    if !words_sound::is_sound(words) {
        return UNSOUND;
    }
    library_readers::numbers_on(words, numbers)
}

// The n entries of the vector of a process.
#[unsafe(no_mangle)]
pub extern "C" fn lemidrosy_vector(words: &[u16], process: usize, vector: &mut [u16]) -> u64
    ensures value { result ≡ coded (vector_reading (run_of words.now) process vector.old).report 0 }
    ensures vector_after { vector.new ≡ (vector_reading (run_of words.now) process vector.old).list }
{
    if !words_sound::is_sound(words) {
        return UNSOUND;
    }
    library_readers::vector_on(words, process, vector)
}

// The n pins of a process, each as one more than the index of the checkpoint that it names, 0 for none.
#[unsafe(no_mangle)]
pub extern "C" fn lemidrosy_pins(words: &[u16], process: usize, pins: &mut [u16]) -> u64
    ensures value { result ≡ coded (pins_reading (run_of words.now) process pins.old).report 0 }
    ensures pins_after { pins.new ≡ (pins_reading (run_of words.now) process pins.old).list }
{
    if !words_sound::is_sound(words) {
        return UNSOUND;
    }
    library_readers::pins_on(words, process, pins)
}

// The checkpoints that a process keeps, ascending, three numbers each: the index, the cause (0 initial, 1 basic, 2 forced) and the blocks. The list has room for 3 n
// numbers. The value says how many they are.
#[unsafe(no_mangle)]
pub extern "C" fn lemidrosy_kept(words: &[u16], process: usize, kept: &mut [u32]) -> u64
    ensures value { result ≡ coded (kept_reading (run_of words.now) process kept.old).report 0 }
    ensures kept_after { kept.new ≡ (kept_reading (run_of words.now) process kept.old).list }
{
    if !words_sound::is_sound(words) {
        return UNSOUND;
    }
    library_readers::kept_on(words, process, kept)
}

// The messages under way, ascending, three numbers each: the number, the sender and the receiver. The list has room for 192 numbers. The value says how many they
// are.
#[unsafe(no_mangle)]
pub extern "C" fn lemidrosy_messages(words: &[u16], messages: &mut [u32]) -> u64
    ensures value { result ≡ coded (messages_reading (run_of words.now) messages.old).report 0 }
    ensures messages_after { messages.new ≡ (messages_reading (run_of words.now) messages.old).list }
{
    if !words_sound::is_sound(words) {
        return UNSOUND;
    }
    library_readers::messages_on(words, messages)
}

// The n entries of the vector that a message carries.
#[unsafe(no_mangle)]
pub extern "C" fn lemidrosy_carried(words: &[u16], message: u32, vector: &mut [u16]) -> u64
    ensures value { result ≡ coded (carried_reading (run_of words.now) message vector.old).report 0 }
    ensures vector_after { vector.new ≡ (carried_reading (run_of words.now) message vector.old).list }
{
    if !words_sound::is_sound(words) {
        return UNSOUND;
    }
    library_readers::carried_on(words, message, vector)
}

// The messages under way that a recovery of a failed set would lose, bit p of which stands for process p, ascending, three numbers each as those under way. The list
// has room for 192 numbers. The value says how many they are. It is asked before the recovery.
#[unsafe(no_mangle)]
pub extern "C" fn lemidrosy_lost(words: &[u16], failed: u32, messages: &mut [u32]) -> u64
    ensures value { result ≡ coded (lost_reading (run_of words.now) failed messages.old).report 0 }
    ensures messages_after { messages.new ≡ (lost_reading (run_of words.now) failed messages.old).list }
{
    if !words_sound::is_sound(words) {
        return UNSOUND;
    }
    library_readers::lost::lost_on(words, failed, messages)
}
