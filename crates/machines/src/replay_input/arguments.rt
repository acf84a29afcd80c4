// The word that the program is started with.
ghost use Rattle.std.specs.Prelude.{◌≡◌, ◌∷◌};
ghost use Rattle.laws.specs.Basics.{[]};
ghost use Rattle.laws.specs.Tests.{same};

// Whether it is `all`, with which a replay goes on after a refusal: "Any other argument .. counts as none."
pub fn is_all(argument: &[u8]) -> bool
    ensures { result ≡ same argument.now (97 ∷ 108 ∷ 108 ∷ []) }
{
    if argument.len() != 3 {
        return false;
    }
    if argument[0] != b'a' {
        return false;
    }
    if argument[1] != b'l' {
        return false;
    }
    argument[2] == b'l'
}
