// Whether a state is sound.
ghost use Rattle.std.specs.Prelude.{◌≡◌};
ghost use Rattle.model.specs.Sound.{sound};

use crate::run_words::fill;
use model::Run;
use words::WORDS;

pub fn is_sound_state(s: Run) -> bool
    ensures { result ≡ sound s }
{
    let few = fill::are_counts_fit(s.count, s.underway);
    if !few {
        return false;
    }
    let mut w = [0u16; WORDS];
    fill::fill(&mut w, s);
    words_sound::is_sound(&w)
}
