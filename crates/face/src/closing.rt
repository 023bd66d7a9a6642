// The host closes.
ghost use Rattle.calls.specs.Closing.{shutting, aborting};
ghost use Rattle.kept.specs.Cause.{reason_of};
ghost use Rattle.face.specs.FaceLeft.{call_told_of};
ghost use Rattle.face.specs.Promises.{Sends};

use crate::answer::{Served, tell, unserved};
use kept::{Kept, cause};

// No more messages.
pub fn shutdown(
    k: Kept,
    held: &[u32; 512],
    places: &[u32; 1024],
    out: &mut [u8],
    told: &mut [usize; 2],
) -> Served
    ensures { Sends shutting k held.now places.now out.old (call_told_of result.number result.kept told.new) out.new }
{
    if !kept::is_named(k) {
        return unserved(k, told);
    }
    let head = kept::unpack(k);
    let answer = asks::shutdown(head, held, places, out);
    tell(head, answer, told)
}

// Over at once.
pub fn abort(
    k: Kept,
    held: &[u32; 512],
    places: &[u32; 1024],
    cause: u8,
    tsn: u32,
    out: &mut [u8],
    told: &mut [usize; 2],
) -> Served
    ensures { Sends (λ a. aborting a (reason_of cause tsn)) k held.now places.now out.old (call_told_of result.number result.kept told.new) out.new }
{
    if !kept::is_named(k) {
        return unserved(k, told);
    }
    let head = kept::unpack(k);
    let why = cause::reason_of(cause, tsn);
    let answer = asks::abort(head, held, places, why, out);
    tell(head, answer, told)
}
