// A chunk arrives: document 01's checks in their order, with those of 02, and what each leaves.
ghost use Rattle.std.specs.Prelude.{◌≡◌, ◌^◌};
ghost use Rattle.numbers.specs.Numbering.{ring};
ghost use Rattle.numbers.specs.Keeping.{is_come};
ghost use Rattle.scans.specs.Scan.{either};
ghost use Rattle.delivery.specs.Contradiction.{contradicts_next};
ghost use Rattle.delivery.specs.Arrival.{is_opposite, is_old, is_beyond};

use crate::receiving;
use crate::receiving::Receiving;
use holding::Held;
use numbers::{Judgement, Keeping, Tsn};

#[derive(Clone, Copy)]
pub enum Verdict {
    Kept,
    Empty,
    Long,
    Opposite,
    Duplicate,
    Wedged,
    Far,
    Stray,
    Clashing,
}

#[derive(Clone, Copy)]
pub struct Arrival {
    pub verdict: Verdict,
    pub receiving: Receiving,
}

// What the held chunks say of a chunk that comes: how many are low, whether its number is held, and whether one of them contradicts it.
#[derive(Clone, Copy)]
pub struct Look {
    pub low: usize,
    pub held: bool,
    pub clash: bool,
}

// Whether the second chunk is one number on from the first, and begins a message where that one does not end, or goes on where it ends.
#[tactic(auto, unfolding(crate::specs::Contradiction::contradicts_next, crate::specs::Contradiction::contradicts))]
fn contradicts_next(first: Held, second: Held) -> bool
    ensures { result ≡ contradicts_next (ring (2 ^ 32)) first second }
{
    first.tsn.after(1).0 == second.tsn.0 && first.end != second.begin
}

// Whether either of two chunks is one number on from the other and contradicts it.
pub fn contradict(first: Held, second: Held) -> bool
    ensures { result ≡ either (contradicts_next (ring (2 ^ 32)) first second) (contradicts_next (ring (2 ^ 32)) second first) }
{
    contradicts_next(first, second) || contradicts_next(second, first)
}

// Exactly half the circle away.
pub fn is_opposite(j: Judgement) -> bool
    ensures { result ≡ is_opposite j }
{
    matches!(j, Judgement::AtOpposite)
}

pub fn is_old(j: Judgement) -> bool
    ensures { result ≡ is_old j }
{
    matches!(j, Judgement::AtOrBehind)
}

pub fn is_beyond(j: Judgement) -> bool
    ensures { result ≡ is_beyond j }
{
    matches!(j, Judgement::AheadBeyond(_))
}

// Whether the number's offset has already come, or its chunk is already held.
pub fn is_repeat(keeping: Keeping, held: bool, tsn: Tsn) -> bool
    ensures { result ≡ either (is_come (ring (2 ^ 32)) keeping tsn.0) held }
{
    keeping.is_come(tsn) || held
}
