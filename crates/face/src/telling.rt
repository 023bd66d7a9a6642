// ERROR and HEARTBEAT.
ghost use Rattle.calls.specs.Telling.{telling_stream, telling_stale, beating};
ghost use Rattle.face.specs.FaceLeft.{call_told_of};
ghost use Rattle.face.specs.Promises.{Sends};

use crate::answer::{Served, tell, unserved};
use kept::Kept;
use numbers::StreamId;

// A stream is not agreed.
pub fn error_stream(
    k: Kept,
    held: &[u32; 512],
    places: &[u32; 1024],
    stream: u16,
    out: &mut [u8],
    told: &mut [usize; 2],
) -> Served
    ensures { Sends (λ a. telling_stream a (record { 0 = stream })) k held.now places.now out.old (call_told_of result.number result.kept told.new) out.new }
{
    if !kept::is_named(k) {
        return unserved(k, told);
    }
    let head = kept::unpack(k);
    let answer = asks::error_stream(head, held, places, StreamId(stream), out);
    tell(head, answer, told)
}

// A cookie was stale.
pub fn error_stale(
    k: Kept,
    held: &[u32; 512],
    places: &[u32; 1024],
    port: u16,
    tag: u32,
    late: u32,
    out: &mut [u8],
    told: &mut [usize; 2],
) -> Served
    ensures { Sends (λ a. telling_stale a port tag late) k held.now places.now out.old (call_told_of result.number result.kept told.new) out.new }
{
    if !kept::is_named(k) {
        return unserved(k, told);
    }
    let head = kept::unpack(k);
    let answer = asks::error_stale(head, held, places, port, tag, late, out);
    tell(head, answer, told)
}

// A value of the host goes out, to be brought back.
pub fn heartbeat(
    k: Kept,
    held: &[u32; 512],
    places: &[u32; 1024],
    value: &[u8; 8],
    out: &mut [u8],
    told: &mut [usize; 2],
) -> Served
    ensures { Sends (λ a. beating a value.now) k held.now places.now out.old (call_told_of result.number result.kept told.new) out.new }
{
    if !kept::is_named(k) {
        return unserved(k, told);
    }
    let head = kept::unpack(k);
    let bytes = *value;
    let answer = asks::heartbeat(head, held, places, bytes, out);
    tell(head, answer, told)
}
