// ERROR and HEARTBEAT.
ghost use Rattle.std.specs.Prelude.{◌≡◌, List, ℕ};
ghost use Rattle.numbers.specs.Refusal.{answered_number};
ghost use Rattle.calls.specs.Answer.{CallDone};
ghost use Rattle.calls.specs.Telling.{telling_stream, stale_refusal, telling_stale, beating};
ghost use Rattle.flat.specs.Shown.{shown};
ghost use Rattle.asks.specs.TableAnswer.{reply_of, answer_in};

use crate::answer::{Answered, permitted};
use crate::packet;
use calls::answer::OUTPUT;
use chunks::cause::Cause;
use flat::Head;
use numbers::{Refusal, StreamId};
use packets::Header;
use states::Call;

// A DATA chunk had a stream that is not agreed (14): ERROR with cause 1.
pub fn error_stream(
    head: Head,
    held: &[u32; 512],
    places: &[u32; 1024],
    stream: StreamId,
    out: &mut [u8],
) -> Result<Answered, Refusal>
    ensures { (ns ms cs : List ℕ) → CallDone (telling_stream (shown head held.now ns places.now ms cs) stream out.old) out.old (answer_in (reply_of head result) held.now ns places.now ms cs) out.new }
{
    permitted(head, held, places, out.len() < OUTPUT, Call::Acknowledge)?;
    let h = packet::to_peer(head.ends);
    let length = packet::send_error(h, Cause::InvalidStream(stream), out);
    Ok(Answered::told(head, length))
}

fn check(local: u16, port: u16, tag: u32) -> Result<(), Refusal>
    ensures { answered_number result ≡ stale_refusal local port tag }
{
    if association::bounds::lacks_port(local, port) || tag == 0 {
        return Err(Refusal::Head);
    }
    Ok(())
}

// A cookie was stale (27), so many microseconds: ERROR with cause 3 to the peer that the cookie names.
pub fn error_stale(
    head: Head,
    held: &[u32; 512],
    places: &[u32; 1024],
    port: u16,
    tag: u32,
    late: u32,
    out: &mut [u8],
) -> Result<Answered, Refusal>
    ensures { (ns ms cs : List ℕ) → CallDone (telling_stale (shown head held.now ns places.now ms cs) port tag late out.old) out.old (answer_in (reply_of head result) held.now ns places.now ms cs) out.new }
{
    permitted(head, held, places, out.len() < OUTPUT, Call::TellStale)?;
    check(head.ends.local_port, port, tag)?;
    let h = Header {
        source: head.ends.local_port,
        destination: port,
        tag,
    };
    let length = packet::send_error(h, Cause::StaleCookie(late), out);
    Ok(Answered::told(head, length))
}

// A HEARTBEAT with a value of the host, which the peer's HEARTBEAT ACK brings back.
pub fn heartbeat(
    head: Head,
    held: &[u32; 512],
    places: &[u32; 1024],
    value: [u8; 8],
    out: &mut [u8],
) -> Result<Answered, Refusal>
    ensures { (ns ms cs : List ℕ) → CallDone (beating (shown head held.now ns places.now ms cs) value out.old) out.old (answer_in (reply_of head result) held.now ns places.now ms cs) out.new }
{
    permitted(head, held, places, out.len() < OUTPUT, Call::Heartbeat)?;
    let length = packet::send_heartbeat(head.ends, value, out);
    Ok(Answered::told(head, length))
}
