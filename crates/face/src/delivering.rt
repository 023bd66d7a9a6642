// Messages are taken.
ghost use Rattle.std.specs.Prelude.{◌≡◌};
ghost use Rattle.asks.specs.TableMessages.{message_reply_of};
ghost use Rattle.face.specs.FaceLeft.{call_told_of};
ghost use Rattle.face.specs.FaceMessages.{delivered_told, delivered_lent};
ghost use Rattle.face.specs.Promises.{Takes};

use crate::answer::{Served, unserved};
use asks::Undelivered;
use holding::taking::Message;
use kept::{Kept, flags};

// Told: length, stream, whether it was out of order, SSN, payload protocol identifier.
fn given(k: Kept, answer: Result<Message, Undelivered>, told: &mut [usize; 5]) -> Served
    ensures { call_told_of result.number result.kept told.new ≡ delivered_told k (message_reply_of answer) }
{
    match answer {
        Ok(message) => {
            *told = [
                message.length,
                usize::from(message.stream.0),
                usize::from(flags::byte_of(message.unordered)),
                usize::from(message.ssn.0),
                message.ppid as usize,
            ];
            Served::done(k)
        }
        Err(undelivered) => {
            *told = [undelivered.needed, 0, 0, 0, 0];
            Served::refused(k, undelivered.refusal)
        }
    }
}

// A message is taken.
pub fn take(
    k: Kept,
    held: &mut [u32; 512],
    next_in: &mut [u16; 128],
    places: &[u32; 1024],
    area: &[u8],
    out: &mut [u8],
    told: &mut [usize; 5],
) -> Served
    ensures { Takes k places.now area.now (delivered_lent held.old next_in.old out.old) (call_told_of result.number result.kept told.new) (delivered_lent held.new next_in.new out.new) }
{
    if !kept::is_named(k) {
        return unserved(k, told);
    }
    let head = kept::unpack(k);
    let answer = asks::take(head, held, next_in, places, area, out);
    given(k, answer, told)
}
