// A state saved to bytes and loaded from them. Both ask nothing of what they are lent: specs/Saving says what is refused and what is left.
ghost use Rattle.std.specs.Prelude.{◌≡◌};
ghost use Rattle.listing.specs.answers.Codes.{coded};
ghost use Rattle.library_readers.specs.saved.Saving.{saving, loading};

use crate::{copy_words, counted, refused};
use model::Refusal;
use words::WORDS;

// bytes.rt: the bytes of a saved state (specs/Format): written from its words, judged, and the words read from them.
pub mod bytes;

// checksum.rt: CRC-32C, the checksum of a saved state: specs/Castagnoli says what it is, and here it is computed, bit by bit.
pub mod checksum;

pub fn save(w: &[u16], bytes: &mut [u8]) -> u64
    ensures value { result ≡ coded (saving w.now bytes.old).report 0 }
    ensures bytes_after { bytes.new ≡ (saving w.now bytes.old).list }
{
    let sound = words_sound::is_sound(w);
    if !sound {
        return refused(Refusal::UnsoundState);
    }
    if bytes.len() < crate::saved::bytes::SAVED {
        return refused(Refusal::ListTooShort);
    }
    crate::saved::bytes::write_saved(w, bytes);
    counted(crate::saved::bytes::SAVED)
}

// The words are read into a list of their own and judged there: where they are refused, the lent ones are as they were.
pub fn load(bytes: &[u8], w: &mut [u16]) -> u64
    ensures value { result ≡ coded (loading bytes.now w.old).report 0 }
    ensures w_after { w.new ≡ (loading bytes.now w.old).list }
{
    if w.len() != WORDS {
        return refused(Refusal::UnsoundState);
    }
    let whole = crate::saved::bytes::is_whole(bytes);
    if !whole {
        return refused(Refusal::UnsoundState);
    }
    let loaded = crate::saved::bytes::words_in(bytes);
    let sound = words_sound::is_sound(&loaded);
    if !sound {
        return refused(Refusal::UnsoundState);
    }
    copy_words(&loaded, 0, WORDS, w);
    0
}
