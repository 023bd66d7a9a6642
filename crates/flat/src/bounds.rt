// Number 1: the bounds of a record whose tables are lent.
ghost use Rattle.std.specs.Prelude.{◌≡◌, List, ℕ};
ghost use Rattle.association.specs.Bounds.{is_head, is_sound};
ghost use Rattle.flat.specs.Shown.{cookie_shown, shown};

use crate::head::Head;
use association::bounds;
use states::State;

// Whether head and tables are within their bounds, whatever the next SSNs and the bytes of the cookie.
#[tactic(auto, unfolding(association::specs::Bounds::is_sound))]
pub fn is_sound(head: Head, held: &[u32; 512], places: &[u32; 1024]) -> bool
    ensures { (ns ms cs : List ℕ) → result ≡ is_sound (shown head held.now ns places.now ms cs) }
{
    head.state.within_tries()
        && head.cookie_len <= 256
        && bounds::is_head(head.state, head.ends, head.cookie_len)
        && reception::bounds::is_sound(head.keeping, held)
        && sender::is_within(head.sender, places)
}
