// A packet with one chunk, written behind the header's 12 bytes and then sealed.
ghost use Rattle.std.specs.Prelude.{◌≡◌, ◌≤◌, length, take, drop};
ghost use Rattle.chunks.specs.Types.{abort_type};
ghost use Rattle.chunks.specs.Frame.{framed};
ghost use Rattle.chunks.specs.Cause.{caused, cause_code, information};
ghost use Rattle.chunks.specs.ShutdownChunk.{shutdown_bytes, shutdown_ack_bytes};
ghost use Rattle.chunks.specs.CookieChunk.{cookie_echo_bytes};
ghost use Rattle.chunks.specs.HeartbeatChunk.{heartbeat_bytes};
ghost use Rattle.calls.specs.Packet.{head_to_peer, to_peer, Sent};
ghost use Rattle.calls.specs.Opening.{association_init, init_bytes};
ghost use Rattle.calls.specs.Telling.{error_bytes};
ghost use Rattle.flat.specs.Shown.{bare};

use association::Ends;
use chunks::cause::Cause;
use chunks::init::Init;
use flat::Head;
use numbers::{Rail, Tsn};
use packets::Header;

// The window of a record with every place free.
const WINDOW: u32 = Rail::AREA as u32;

pub(crate) fn head_of(e: Ends, tag: u32) -> Header
    ensures { result ≡ head_to_peer e tag }
{
    Header {
        source: e.local_port,
        destination: e.peer_port,
        tag,
    }
}

pub(crate) fn to_peer(e: Ends) -> Header
    ensures { result ≡ to_peer e }
{
    head_of(e, e.peer_tag)
}

fn init(head: Head) -> Init
    ensures { result ≡ association_init (bare head) }
{
    Init {
        tag: head.ends.my_tag,
        window: WINDOW,
        outs: head.ends.streams_out,
        ins: Rail::STREAMS as u16,
        tsn: head.sender.next_tsn,
    }
}

// "INIT has tag 0".
pub(crate) fn send_init(head: Head, out: &mut [u8]) -> usize
    requires { 12 ≤ length out.old }
    ensures { Sent (head_to_peer head.ends 0) (init_bytes (bare head)) out.old result out.new }
{
    let h = head_of(head.ends, 0);
    let v = init(head);
    let n = chunks::init::write_init(&mut out[12..], v);
    packets::seal(out, 12 + n, h)
}

// The cookie that is kept.
pub(crate) fn send_cookie_echo(e: Ends, kept: &[u8; 256], len: u16, out: &mut [u8]) -> usize
    requires { 12 ≤ length out.old }
    ensures { Sent (to_peer e) (cookie_echo_bytes (take len (drop 0 kept.now))) out.old result out.new }
{
    let h = to_peer(e);
    let cookie = octets::part(kept, 0, len as usize);
    let n = chunks::cookie::write_cookie_echo(&mut out[12..], cookie);
    packets::seal(out, 12 + n, h)
}

pub(crate) fn send_shutdown(e: Ends, point: Tsn, out: &mut [u8]) -> usize
    requires { 12 ≤ length out.old }
    ensures { Sent (to_peer e) (shutdown_bytes point) out.old result out.new }
{
    let h = to_peer(e);
    let n = chunks::shutdown::write_shutdown(&mut out[12..], point);
    packets::seal(out, 12 + n, h)
}

pub(crate) fn send_shutdown_ack(e: Ends, out: &mut [u8]) -> usize
    requires { 12 ≤ length out.old }
    ensures { Sent (to_peer e) shutdown_ack_bytes out.old result out.new }
{
    let h = to_peer(e);
    let n = chunks::shutdown::write_shutdown_ack(&mut out[12..]);
    packets::seal(out, 12 + n, h)
}

pub(crate) fn send_abort(e: Ends, c: Cause, out: &mut [u8]) -> usize
    requires { 12 ≤ length out.old }
    ensures { Sent (to_peer e) (framed abort_type 0 (caused (cause_code c) (information c))) out.old result out.new }
{
    let h = to_peer(e);
    let n = chunks::cause::write_abort(&mut out[12..], false, c);
    packets::seal(out, 12 + n, h)
}

pub(crate) fn send_error(h: Header, c: Cause, out: &mut [u8]) -> usize
    requires { 12 ≤ length out.old }
    ensures { Sent h (error_bytes c) out.old result out.new }
{
    let n = chunks::cause::write_error(&mut out[12..], c);
    packets::seal(out, 12 + n, h)
}

pub(crate) fn send_heartbeat(e: Ends, value: [u8; 8], out: &mut [u8]) -> usize
    requires { 12 ≤ length out.old }
    ensures { Sent (to_peer e) (heartbeat_bytes value) out.old result out.new }
{
    let h = to_peer(e);
    let n = chunks::heartbeat::write_heartbeat(&mut out[12..], value);
    packets::seal(out, 12 + n, h)
}
