// The host's word on an echoed cookie.
ghost use Rattle.std.specs.Prelude.{◌≡◌};
ghost use Rattle.kept.specs.Word.{echoed_of};

use steps::{Echoed, Made};

// 1 stale, 2 good, any other number bad.
#[tactic(auto, unfolding(crate::specs::Word::echoed_of))]
pub fn echoed_of(word: u8, made: Made) -> Echoed
    ensures { result ≡ echoed_of word made }
{
    match word {
        1 => Echoed::Stale(made),
        2 => Echoed::Good(made),
        _ => Echoed::Bad,
    }
}
