// The reply to a packet: the gathered chunks, and what is owed at their end.
ghost use Rattle.std.specs.Prelude.{◌≡◌, ◌≤◌, length, take};
ghost use Rattle.chunks.specs.ShutdownChunk.{complete_bytes};
ghost use Rattle.flat.specs.Shown.{bare};
ghost use Rattle.arriving.specs.Reply.{is_shutdown_due, shutdown_added, whole_reply, reply_tag, reply_head, reply_length, sent_out};
ghost use Rattle.landing.specs.TableWalk.{bare_walked};

use crate::walk::Walk;
use arriving::reply::is_shutdown_sent;
use flat::Head;
use packets::Header;
use steps::Owed;

fn is_shutdown_due(w: Walk) -> bool
    ensures { result ≡ is_shutdown_due (bare_walked w) }
{
    w.due && is_shutdown_sent(w.head.state)
}

// One SHUTDOWN with the point at the packet's end, if it is due and fits.
fn end_reply(w: Walk, scratch: &mut [u8]) -> usize
    requires { (w.used ≤ 1460) × (length scratch.old ≡ 1460) }
    ensures { (take result scratch.new ≡ shutdown_added (bare_walked w) (take w.used scratch.old)) × (result ≤ 1460) }
{
    if !is_shutdown_due(w) {
        return w.used;
    }
    let point = w.head.keeping.point;
    w.used + chunks::shutdown::write_shutdown(&mut scratch[w.used..], point)
}

fn write_complete(scratch: &mut [u8], reflected: bool) -> usize
    requires { length scratch.old ≡ 1460 }
    ensures { (take result scratch.new ≡ complete_bytes reflected) × (result ≤ 1460) }
{
    chunks::shutdown::write_shutdown_complete(scratch, reflected)
}

// A SHUTDOWN COMPLETE takes the place of all other replies. The answer is how many bytes at the head of `scratch` are the reply.
pub(crate) fn close_reply(w: Walk, scratch: &mut [u8]) -> usize
    requires { (w.used ≤ 1460) × (length scratch.old ≡ 1460) }
    ensures { (take result scratch.new ≡ whole_reply (bare_walked w) (take w.used scratch.old)) × (result ≤ 1460) }
{
    match w.complete {
        Owed::Complete => write_complete(scratch, false),
        Owed::Reflected => write_complete(scratch, true),
        Owed::Nothing | Owed::Shutdown | Owed::To(_) => end_reply(w, scratch),
    }
}

// The tag that the step which replies has named, else the peer's; or the packet's own, reflected.
fn reply_tag(head: Head, complete: Owed, tag: u32) -> u32
    ensures { result ≡ reply_tag (bare head) complete tag }
{
    match complete {
        Owed::To(t) => t,
        Owed::Reflected => tag,
        Owed::Complete | Owed::Nothing | Owed::Shutdown => head.ends.peer_tag,
    }
}

// From our port back to where the packet came from.
pub(crate) fn reply_head(head: Head, complete: Owed, h: Header) -> Header
    ensures { result ≡ reply_head (bare head) complete h }
{
    Header {
        source: head.ends.local_port,
        destination: h.source,
        tag: reply_tag(head, complete, h.tag),
    }
}

// The packet of the reply; none where there is no reply.
pub(crate) fn send(h: Header, reply: &[u8], out: &mut [u8]) -> usize
    requires { length reply.now ≤ 1460 }
    ensures { (result ≡ reply_length reply.now out.old) × (out.new ≡ sent_out h reply.now out.old) }
{
    if reply.is_empty() {
        return 0;
    }
    octets::put_all(out, 12, reply);
    packets::seal(out, 12 + reply.len(), h)
}
