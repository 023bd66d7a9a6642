// What a call answers, and what bars it.
ghost use Rattle.std.specs.Prelude.{◌≡◌, List, ℕ};
ghost use Rattle.numbers.specs.Refusal.{answered_number};
ghost use Rattle.calls.specs.Answer.{barred};
ghost use Rattle.flat.specs.Shown.{shown};
ghost use Rattle.asks.specs.TableAnswer.{reply_done, with_sender, told_with, over_with};

use flat::Head;
use numbers::Refusal;
use sender::Sender;
use states::{Call, State};

// The bytes of the packet that was written; whether an expiry closed the association; the head.
#[derive(Clone, Copy)]
pub struct Answered {
    pub length: usize,
    pub over: bool,
    pub head: Head,
}

impl Answered {
    // An expiry that closes changes nothing but the state.
    #[inline(always)]
    pub(crate) fn over(head: Head) -> Answered
        ensures { reply_done result ≡ over_with head }
    {
        Answered {
            length: 0,
            over: true,
            head: head.moved(State::Closed),
        }
    }

    #[inline(always)]
    pub(crate) fn told(head: Head, length: usize) -> Answered
        ensures { reply_done result ≡ told_with head length }
    {
        Answered {
            length,
            over: false,
            head,
        }
    }
}

// Whatever the tables that have no part in the bounds; `short` is whether something lent is too short.
pub fn permitted(
    head: Head,
    held: &[u32; 512],
    places: &[u32; 1024],
    short: bool,
    call: Call,
) -> Result<(), Refusal>
    ensures { (ns ms cs : List ℕ) → answered_number result ≡ barred (shown head held.now ns places.now ms cs) short call }
{
    if !flat::bounds::is_sound(head, held, places) {
        return Err(Refusal::Record);
    }
    if short {
        return Err(Refusal::Short);
    }
    if !states::permits(call, head.state) {
        return Err(Refusal::State);
    }
    Ok(())
}

pub(crate) fn with_sender(mut head: Head, s: Sender) -> Head
    ensures { result ≡ with_sender head s }
{
    head.sender = s;
    head
}
