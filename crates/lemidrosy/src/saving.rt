// A state saved to bytes, which a caller may store, and loaded from them again: the bytes are the same on every machine (crate `saved`, specs/Format).
ghost use Rattle.std.specs.Prelude.{◌≡◌};
ghost use Rattle.listing.specs.answers.Codes.{coded};
ghost use Rattle.library_readers.specs.saved.Saving.{saving, loading, SavedIsLoaded, LoadedWasSaved};

// The bytes of a saved state go to the front of the lent ones; the value is how many they are.
#[unsafe(no_mangle)]
pub extern "C" fn lemidrosy_save(words: &[u16], bytes: &mut [u8]) -> u64
    ensures value { result ≡ coded (saving words.now bytes.old).report 0 }
    ensures bytes_after { bytes.new ≡ (saving words.now bytes.old).list }
    ensures saved_is_loaded { SavedIsLoaded words.now }
{
    library_readers::saved::save(words, bytes)
}

// The words that bytes hold which are a saved sound state, and nothing more. Refused, no word is written.
#[unsafe(no_mangle)]
pub extern "C" fn lemidrosy_load(bytes: &[u8], words: &mut [u16]) -> u64
    ensures value { result ≡ coded (loading bytes.now words.old).report 0 }
    ensures words_after { words.new ≡ (loading bytes.now words.old).list }
    ensures loaded_was_saved { LoadedWasSaved bytes.now }
{
    library_readers::saved::load(bytes, words)
}
