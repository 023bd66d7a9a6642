// Messages among the held chunks: which one a take gives.
ghost use Rattle.std.specs.Prelude.{◌≡◌};
ghost use Rattle.holding.specs.Message.{is_of_one, continues, is_left_end};

use crate::held::Held;
use numbers::Tsn;

// The best message so far: the place of its first chunk, and its key.
#[derive(Clone, Copy)]
pub struct Best {
    pub place: usize,
    pub key: u32,
}

// Whether the chunk is of the message of `first`, by stream, U bit and, if ordered, SSN.
#[tactic(auto, unfolding(crate::specs::Message::is_of_one))]
fn is_of_one(first: Held, h: Held) -> bool
    ensures { result ≡ is_of_one first h }
{
    h.stream.0 == first.stream.0
        && h.unordered == first.unordered
        && (h.unordered || h.ssn.0 == first.ssn.0)
}

// Whether the chunk goes on the run of `first` at the number `t`.
#[tactic(auto, unfolding(crate::specs::Message::continues))]
pub fn goes_on(first: Held, t: Tsn, h: Held) -> bool
    ensures { result ≡ continues first t.0 h }
{
    h.is_of(t) && !h.begin && is_of_one(first, h)
}

// Whether a message may begin with the chunk.
#[tactic(auto, unfolding(crate::specs::Message::is_left_end))]
pub fn is_left_end(h: Held) -> bool
    ensures { result ≡ is_left_end h }
{
    h.used && h.begin
}
