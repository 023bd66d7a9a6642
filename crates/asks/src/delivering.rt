// A message is taken.
ghost use Rattle.std.specs.Prelude.{◌≡◌, List, ℕ};
ghost use Rattle.calls.specs.Messages.{delivered_as, take_bar};
ghost use Rattle.flat.specs.declared.head.Head.{Head};
ghost use Rattle.flat.specs.Shown.{shown, bare};
ghost use Rattle.asks.specs.TableMessages.{message_reply_of, Delivery, delivered_beside, delivered_from};

use calls::answer::AREA;
use flat::Head;
use holding::Answer;
use holding::taking::Message;
use numbers::Refusal;

// Why no message is taken; of an output that is too short for it, the length needed, else 0.
#[derive(Clone, Copy)]
pub struct Undelivered {
    pub refusal: Refusal,
    pub needed: usize,
}

fn answered(answer: Answer) -> Result<Message, Undelivered>
    ensures { (head : Head) → message_reply_of result ≡ delivered_beside (delivered_as answer (bare head)) }
{
    match answer {
        Answer::Taken(message) => Ok(message),
        Answer::Nothing => Err(Undelivered {
            refusal: Refusal::Nothing,
            needed: 0,
        }),
        Answer::Short(needed) => Err(Undelivered {
            refusal: Refusal::Short,
            needed,
        }),
    }
}

// A message is taken, in any state: its bytes go to the lent output. The head stays; what is refused leaves the tables and the output too.
pub fn take(
    head: Head,
    held: &mut [u32; 512],
    next_in: &mut [u16; 128],
    places: &[u32; 1024],
    area: &[u8],
    out: &mut [u8],
) -> Result<Message, Undelivered>
    ensures { (ms cs : List ℕ) → ◌≡◌ {A = Delivery} (record { answer = message_reply_of result; held = held.new; next = next_in.new; out = out.new }) (delivered_from (take_bar (shown head held.old next_in.old places.now ms cs) area.now) head held.old next_in.old area.now out.old) }
{
    if !flat::bounds::is_sound(head, held, places) {
        return Err(Undelivered {
            refusal: Refusal::Record,
            needed: 0,
        });
    }
    if area.len() < AREA {
        return Err(Undelivered {
            refusal: Refusal::Short,
            needed: 0,
        });
    }
    answered(taking::giving::take(held, next_in, head.keeping.point, area, out))
}
