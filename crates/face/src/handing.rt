// Messages are handed in.
ghost use Rattle.std.specs.Prelude.{◌≡◌};
ghost use Rattle.messages.specs.MessageWords.{handing_of};
ghost use Rattle.face.specs.FaceLeft.{call_told_of};
ghost use Rattle.face.specs.FaceMessages.{handed_told, handed_lent};
ghost use Rattle.face.specs.Promises.{HandsIn};

use crate::answer::{Served, unserved};
use kept::{Kept, flags};
use numbers::{Refusal, StreamId};

fn handed(k: Kept, answer: Result<usize, Refusal>, told: &mut [usize; 1]) -> Served
    ensures { call_told_of result.number result.kept told.new ≡ handed_told k (handing_of answer) }
{
    match answer {
        Ok(chunks) => {
            *told = [chunks];
            Served::done(k)
        }
        Err(refusal) => {
            *told = [0];
            Served::refused(k, refusal)
        }
    }
}

// A message for a stream, to be sent.
pub fn hand_in(
    k: Kept,
    held: &[u32; 512],
    places: &mut [u32; 1024],
    area: &mut [u8],
    message: &[u8],
    stream: u16,
    unordered: u8,
    ppid: u32,
    told: &mut [usize; 1],
) -> Served
    ensures { HandsIn k held.now message.now stream unordered ppid (handed_lent places.old area.old) (call_told_of result.number result.kept told.new) (handed_lent places.new area.new) }
{
    if !kept::is_named(k) {
        return unserved(k, told);
    }
    let head = kept::unpack(k);
    let answer = asks::hand_in(
        head,
        held,
        places,
        area,
        message,
        StreamId(stream),
        flags::is_yes(unordered),
        ppid,
    );
    handed(k, answer, told)
}
