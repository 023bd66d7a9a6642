// What every call gives back, and what most calls tell.
ghost use Rattle.std.specs.Prelude.{◌≡◌, replicate};
ghost use Rattle.numbers.specs.Refusal.{refusal_number};
ghost use Rattle.kept.specs.Kept.{packed};
ghost use Rattle.asks.specs.TableAnswer.{reply_of};
ghost use Rattle.face.specs.FaceLeft.{call_told_of};
ghost use Rattle.face.specs.FaceAnswer.{answer_told};

use asks::Answered;
use flat::Head;
use kept::{Kept, flags};
use numbers::Refusal;

// The number, 0 if none, and the head.
#[derive(Clone, Copy)]
pub struct Served {
    pub number: u32,
    pub kept: Kept,
}

impl Served {
    #[inline(always)]
    pub(crate) fn done(kept: Kept) -> Self
        ensures { (result.number ≡ 0) × (result.kept ≡ kept) }
    {
        Served { number: 0, kept }
    }

    #[inline(always)]
    pub(crate) fn refused(kept: Kept, refusal: Refusal) -> Self
        ensures { (result.number ≡ refusal_number refusal) × (result.kept ≡ kept) }
    {
        Served {
            number: u32::from(refusal.number()),
            kept,
        }
    }
}

// Where the head is not named: it stays, and zeros are told. They go by a variable: the borrow checker covers no other form at a length that is a parameter.
#[inline(always)]
pub(crate) fn unserved<const N: usize>(k: Kept, told: &mut [usize; N]) -> Served
    ensures { call_told_of result.number result.kept told.new ≡ call_told_of 1 k (replicate N 0) }
{
    let zeros = [0; N];
    *told = zeros;
    Served::refused(k, Refusal::Record)
}

// Told: the length of the packet, and whether an expiry closed the association.
#[inline(always)]
pub(crate) fn tell(head: Head, answer: Result<Answered, Refusal>, told: &mut [usize; 2]) -> Served
    ensures { call_told_of result.number result.kept told.new ≡ answer_told (reply_of head answer) }
{
    match answer {
        Ok(answered) => {
            *told = [answered.length, usize::from(flags::byte_of(answered.over))];
            Served::done(kept::pack(answered.head))
        }
        Err(refusal) => {
            *told = [0; 2];
            Served::refused(kept::pack(head), refusal)
        }
    }
}
