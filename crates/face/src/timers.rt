// Timers expire, and a round trip is measured.
ghost use Rattle.states.specs.declared.call.Call.TheVariants.{FirstTimer, SecondTimer};
ghost use Rattle.face.specs.FaceLeft.{call_told_of};
ghost use Rattle.face.specs.Promises.{Expires, Lapses, Samples};

use crate::answer::{Served, tell, unserved};
use kept::Kept;

// T1 expires: INIT or COOKIE ECHO again, or closed.
pub fn t1(
    k: Kept,
    held: &[u32; 512],
    places: &[u32; 1024],
    kept_cookie: &[u8; 256],
    out: &mut [u8],
    told: &mut [usize; 2],
) -> Served
    ensures { Expires FirstTimer k held.now places.now kept_cookie.now out.old (call_told_of result.number result.kept told.new) out.new }
{
    if !kept::is_named(k) {
        return unserved(k, told);
    }
    let head = kept::unpack(k);
    let answer = asks::t1(head, held, places, kept_cookie, out);
    tell(head, answer, told)
}

// T2 expires: SHUTDOWN or SHUTDOWN ACK again, or closed.
pub fn t2(
    k: Kept,
    held: &[u32; 512],
    places: &[u32; 1024],
    kept_cookie: &[u8; 256],
    out: &mut [u8],
    told: &mut [usize; 2],
) -> Served
    ensures { Expires SecondTimer k held.now places.now kept_cookie.now out.old (call_told_of result.number result.kept told.new) out.new }
{
    if !kept::is_named(k) {
        return unserved(k, told);
    }
    let head = kept::unpack(k);
    let answer = asks::t2(head, held, places, kept_cookie, out);
    tell(head, answer, told)
}

// T3 expires: what is outstanding is marked, or closed.
pub fn t3(k: Kept, held: &[u32; 512], places: &mut [u32; 1024], told: &mut [usize; 2]) -> Served
    ensures { Lapses k held.now places.old (call_told_of result.number result.kept told.new) places.new }
{
    if !kept::is_named(k) {
        return unserved(k, told);
    }
    let head = kept::unpack(k);
    let answer = asks::t3(head, held, places);
    tell(head, answer, told)
}

// A round trip was measured.
pub fn rtt(
    k: Kept,
    held: &[u32; 512],
    places: &[u32; 1024],
    sample: u32,
    told: &mut [usize; 2],
) -> Served
    ensures { Samples k held.now places.now sample (call_told_of result.number result.kept told.new) }
{
    if !kept::is_named(k) {
        return unserved(k, told);
    }
    let head = kept::unpack(k);
    let answer = asks::rtt(head, held, places, sample);
    tell(head, answer, told)
}
