// The bytes of a saved state (specs/Format): written from its words, judged, and the words read from them.
ghost use Rattle.std.specs.Prelude.{◌≡◌, ◌∷◌, ◌+◌, ◌*◌, ◌≤◌, ◌<◌};
ghost use Rattle.laws.specs.Basics.{[], length, sets};
ghost use Rattle.words.specs.Layout.{state_size};
ghost use Rattle.library_readers.specs.saved.Format.{heading, word_bytes, sum_bytes, saved_bytes, word_in_of, words_in, sum_in_of, has_heading_of, is_whole, saved_size, summed_size};

use words::WORDS;

// How many bytes the heading has, how many the checksum is of, and how many there are.
const HEADING: usize = 10;

const SUMMED: usize = HEADING + 2 * WORDS;

pub const SAVED: usize = SUMMED + 4;

// The weight of one byte more.
const BYTE: u16 = 256;

fn wide(byte: u8) -> u16
    ensures { (result ≡ byte) × (result < 256) }
{
    byte as u16
}

fn wider(byte: u8) -> u32
    ensures { (result ≡ byte) × (result < 256) }
{
    byte as u32
}

// "LEMIDROS" and the version, 1.
fn heading_bytes() -> [u8; HEADING]
    ensures { result ≡ heading }
{
    [76, 69, 77, 73, 68, 82, 79, 83, 1, 0]
}

fn write_heading(bytes: &mut [u8])
    requires { 10 ≤ length bytes.old }
    ensures { bytes.new ≡ sets bytes.old 0 heading }
{
    let first = heading_bytes();
    for k in 0..HEADING {
        let x = first[k];
        bytes[k] = x;
    }
}

fn write_word(bytes: &mut [u8], at: usize, x: u16)
    requires { at + 2 ≤ length bytes.old }
    ensures { bytes.new ≡ sets bytes.old at (word_bytes (x ∷ [])) }
{
    bytes[at] = (x % BYTE) as u8;
    bytes[at + 1] = (x / BYTE) as u8;
}

fn write_words(w: &[u16], bytes: &mut [u8])
    requires { (length w.now ≡ state_size) × (saved_size ≤ length bytes.old) }
    ensures { bytes.new ≡ sets bytes.old 10 (word_bytes w.now) }
{
    for k in 0..WORDS {
        let x = w[k];
        write_word(bytes, HEADING + 2 * k, x);
    }
}

fn write_sum(bytes: &mut [u8], sum: u32)
    requires { saved_size ≤ length bytes.old }
    ensures { bytes.new ≡ sets bytes.old summed_size (sum_bytes sum) }
{
    let second = sum / 256;
    let third = second / 256;
    bytes[SUMMED] = (sum % 256) as u8;
    bytes[SUMMED + 1] = (second % 256) as u8;
    bytes[SUMMED + 2] = (third % 256) as u8;
    bytes[SUMMED + 3] = (third / 256) as u8;
}

// The words go to the front of the lent bytes as they are saved.
pub fn write_saved(w: &[u16], bytes: &mut [u8])
    requires { (length w.now ≡ state_size) × (saved_size ≤ length bytes.old) }
    ensures { bytes.new ≡ sets bytes.old 0 (saved_bytes w.now) }
{
    write_heading(bytes);
    write_words(w, bytes);
    let sum = crate::saved::checksum::crc32c_of(bytes, SUMMED);
    write_sum(bytes, sum);
}

fn has_heading(bytes: &[u8]) -> bool
    requires { saved_size ≤ length bytes.now }
    ensures { result ≡ has_heading_of bytes.now }
{
    let first = heading_bytes();
    for k in 0..HEADING {
        if bytes[k] != first[k] {
            return false;
        }
    }
    true
}

fn sum_in(bytes: &[u8]) -> u32
    requires { saved_size ≤ length bytes.now }
    ensures { result ≡ sum_in_of bytes.now }
{
    let low = wider(bytes[SUMMED]) + 256 * wider(bytes[SUMMED + 1]);
    low + 65536 * wider(bytes[SUMMED + 2]) + 16777216 * wider(bytes[SUMMED + 3])
}

// The checksum is asked for last: it looks at every byte.
pub fn is_whole(bytes: &[u8]) -> bool
    ensures { result ≡ is_whole bytes.now }
{
    if bytes.len() != SAVED {
        return false;
    }
    let headed = has_heading(bytes);
    if !headed {
        return false;
    }
    let sum = crate::saved::checksum::crc32c_of(bytes, SUMMED);
    let stored = sum_in(bytes);
    stored == sum
}

fn word_in(bytes: &[u8], k: usize) -> u16
    requires { 12 + 2 * k ≤ length bytes.now }
    ensures { result ≡ word_in_of bytes.now k }
{
    let at = HEADING + 2 * k;
    wide(bytes[at]) + BYTE * wide(bytes[at + 1])
}

// The words that the bytes hold.
pub fn words_in(bytes: &[u8]) -> [u16; WORDS]
    requires { length bytes.now ≡ saved_size }
    ensures { result ≡ words_in bytes.now }
{
    let mut w = [0u16; WORDS];
    for k in 0..WORDS {
        let x = word_in(bytes, k);
        w[k] = x;
    }
    w
}
