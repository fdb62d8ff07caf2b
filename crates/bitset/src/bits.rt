// Going over the bits of a word that are set: `for b in ones_of(word)`.
ghost use Rattle.std.specs.Prelude.{◌≡◌};

use super::ones::Ones;

pub fn ones_of(word: u64) -> Ones
    ensures left { result.left ≡ word }
    ensures at { result.at ≡ 0 }
{
    Ones { left: word, at: 0 }
}
