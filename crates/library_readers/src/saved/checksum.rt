// CRC-32C, the checksum of a saved state: specs/Castagnoli says what it is, and here it is computed, bit by bit.
ghost use Rattle.std.specs.Prelude.{◌≡◌, ◌≤◌};
ghost use Rattle.laws.specs.Basics.{length, take};
ghost use Rattle.library_readers.specs.saved.Castagnoli.{bit_taken, byte_taken, crc32c};

// The polynomial of Castagnoli (hexadecimal 82F63B78), and 32 ones.
const POLYNOMIAL: u32 = 2197175160;

const ONES: u32 = 4294967295;

// Bits of a byte.
const BITS: usize = 8;

fn wide(byte: u8) -> u32
    ensures { result ≡ byte }
{
    byte as u32
}

fn take_bit(x: u32) -> u32
    ensures { result ≡ bit_taken x }
{
    let half = x / 2;
    if x % 2 == 0 {
        return half;
    }
    half ^ POLYNOMIAL
}

fn take_byte(x: u32, byte: u8) -> u32
    ensures { result ≡ byte_taken x byte }
{
    let wider = wide(byte);
    let mut rest = x ^ wider;
    for k in 0..BITS {
        let next = take_bit(rest);
        rest = next;
    }
    rest
}

// The checksum of the first n bytes.
pub fn crc32c_of(bytes: &[u8], n: usize) -> u32
    requires { n ≤ length bytes.now }
    ensures { result ≡ crc32c (take n bytes.now) }
{
    let mut rest = ONES;
    for k in 0..n {
        let next = take_byte(rest, bytes[k]);
        rest = next;
    }
    rest ^ ONES
}
