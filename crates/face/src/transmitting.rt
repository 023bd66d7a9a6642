// A packet of DATA chunks goes out.
ghost use Rattle.std.specs.Prelude.{◌≡◌};
ghost use Rattle.asks.specs.TableTransmit.{packet_reply_of};
ghost use Rattle.face.specs.FaceLeft.{call_told_of};
ghost use Rattle.face.specs.FaceTransmit.{dispatched_told, dispatched_lent};
ghost use Rattle.face.specs.Promises.{Transmits};

use crate::answer::{Served, unserved};
use asks::Transmitted;
use flat::Head;
use kept::{Kept, flags};
use numbers::Refusal;

// Told: length, whether a chunk goes again, first and last TSN.
fn sent(head: Head, answer: Result<Transmitted, Refusal>, told: &mut [usize; 4]) -> Served
    ensures { call_told_of result.number result.kept told.new ≡ dispatched_told (packet_reply_of head answer) }
{
    match answer {
        Ok(t) => {
            let resent = usize::from(flags::byte_of(t.resent));
            *told = [t.length, resent, t.first.0 as usize, t.last.0 as usize];
            Served::done(kept::pack(t.head))
        }
        Err(refusal) => {
            *told = [0; 4];
            Served::refused(kept::pack(head), refusal)
        }
    }
}

// A packet of DATA chunks goes out.
pub fn transmit(
    k: Kept,
    held: &[u32; 512],
    places: &mut [u32; 1024],
    next_out: &mut [u16; 128],
    area: &[u8],
    out: &mut [u8],
    told: &mut [usize; 4],
) -> Served
    ensures { Transmits k held.now area.now (dispatched_lent places.old next_out.old out.old) (call_told_of result.number result.kept told.new) (dispatched_lent places.new next_out.new out.new) }
{
    if !kept::is_named(k) {
        return unserved(k, told);
    }
    let head = kept::unpack(k);
    let answer = asks::transmit(head, held, places, next_out, area, out);
    sent(head, answer, told)
}
