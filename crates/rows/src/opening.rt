// The chunks that open an association: INIT, INIT ACK, COOKIE ECHO, COOKIE ACK.
// A row is lent the tables that it needs, one by one: with all six it would ask more of its caller.
ghost use Rattle.std.specs.Prelude.{◌≡◌, [], ◌≤◌, length, replicate};
ghost use Rattle.octets.specs.Writing.{wrote_bytes};
ghost use Rattle.steps.specs.declared.meeting.Action.TheVariants.{Restart};
ghost use Rattle.steps.specs.Opening.{answer_init, kept_cookie, echoing, echoed_back, take_init_ack, established};
ghost use Rattle.steps.specs.Meeting.{offered, repeat_ack, starts_anew, with_peer_tag, stays, acts, read_echo};
ghost use Rattle.flat.specs.Shown.{cookie_shown, bare, association_head};
ghost use Rattle.rows.specs.Stepped.{stepped_in};
ghost use Rattle.rows.specs.TableRows.{is_taken, is_starting, cleared_if, kept_if};

use crate::stepped::Stepped;
use association::Ends;
use chunks::init::Init;
use flat::Head;
use numbers::{Keeping, Rail};
use sender::Sender;
use states::State;
use steps::{Action, Echoed, Event, Lent, Made, Named, Reason, meeting, opening};

// An INIT, with what our INIT ACK says of us.
fn answer_with(head: Head, lent: Lent, cookie: &[u8], s: &[u8], space: &mut [u8]) -> Stepped
    ensures { (result ≡ stepped_in space.old (answer_init (bare head) lent cookie.now s.now)) × (space.new ≡ wrote_bytes space.old (answer_init (bare head) lent cookie.now s.now).reply) }
{
    if opening::is_poor_lent(lent, cookie.len()) {
        return Stepped::refused(head, 8, Named::NoCall);
    }
    let v = chunks::init::read_init(s);
    if opening::is_poor(v) {
        return Stepped::refused(head, 8, Named::NoCall);
    }
    if parameters::parameter::has_host_name(s) {
        let p = parameters::parameter::host_name(s);
        let n = chunks::cause::write_abort_address(space, false, &s[p.at..p.at + p.len]);
        return Stepped::answering(head, Event::NoEvent, v.tag, n);
    }
    let k = opening::ack_of(lent, v);
    let n = parameters::report::write_init_ack(space, k, cookie, s);
    Stepped::answering(head, Event::NoEvent, v.tag, n)
}

// An INIT in any state but SHUTDOWN-ACK-SENT.
pub fn answer_init(head: Head, lent: Lent, cookie: &[u8], s: &[u8], space: &mut [u8]) -> Stepped
    ensures { (result ≡ stepped_in space.old (answer_init (bare head) (offered (bare head) lent) cookie.now s.now)) × (space.new ≡ wrote_bytes space.old (answer_init (bare head) (offered (bare head) lent) cookie.now s.now).reply) }
{
    let offer = meeting::offer(head.state, head.ends, head.sender.next_tsn, lent);
    answer_with(head, offer, cookie, s, space)
}

// An INIT in SHUTDOWN-ACK-SENT: the SHUTDOWN ACK again.
pub fn repeat_ack(head: Head, s: &[u8], space: &mut [u8]) -> Stepped
    ensures { (result ≡ stepped_in space.old (repeat_ack (bare head) s.now)) × (space.new ≡ wrote_bytes space.old (repeat_ack (bare head) s.now).reply) }
{
    if opening::is_poor(chunks::init::read_init(s)) {
        return Stepped::refused(head, 8, Named::NoCall);
    }
    let n = chunks::shutdown::write_shutdown_ack(space);
    Stepped::accepted(head, Event::NoEvent, n)
}

// The cookie, for T1's resends, with zeros behind it; the answer is its length.
fn keep(kept: &mut [u8; 256], cookie: &[u8]) -> u16
    requires { length cookie.now ≤ 256 }
    ensures { (result ≡ length cookie.now) × (kept.new ≡ (kept_cookie cookie.now).bytes) }
{
    flat::fresh::clear_cookie(kept);
    octets::put_all(kept, 0, cookie);
    cookie.len() as u16
}

// The head once the INIT ACK is taken in.
fn echoing(head: Head, v: Init, cookie_len: u16) -> Head
    ensures { result ≡ association_head (echoing (bare head) v (cookie_shown cookie_len [])) }
{
    Head {
        state: State::CookieEchoed(0),
        ends: Ends {
            peer_tag: v.tag,
            streams_in: v.outs.min(Rail::STREAMS as u16),
            streams_out: head.ends.streams_out.min(v.ins),
            ..head.ends
        },
        keeping: Keeping::fresh(v.tsn),
        sender: Sender {
            advertised: v.window,
            ..head.sender
        },
        cookie_len,
    }
}

fn echo_back(
    head: Head,
    held: &mut [u32; 512],
    next_in: &mut [u16; 128],
    kept: &mut [u8; 256],
    v: Init,
    cookie: &[u8],
    s: &[u8],
    space: &mut [u8],
) -> Stepped
    requires { length cookie.now ≤ 256 }
    ensures { (result ≡ stepped_in space.old (echoed_back (length space.old) (bare head) v cookie.now s.now))
        × (held.new ≡ replicate 512 0)
        × (next_in.new ≡ replicate 128 0)
        × (kept.new ≡ (kept_cookie cookie.now).bytes)
        × (space.new ≡ wrote_bytes space.old (echoed_back (length space.old) (bare head) v cookie.now s.now).reply) }
{
    tables::held::clear(held);
    tables::ssns::clear(next_in);
    let len = keep(kept, cookie);
    let after = echoing(head, v, len);
    let n = chunks::cookie::write_cookie_echo(space, cookie);
    let m = parameters::report::write_error_parameters(&mut space[n..], s);
    Stepped::accepted(after, Event::NoEvent, n + m)
}

// An INIT ACK in COOKIE-WAIT.
pub fn take_init_ack(
    head: Head,
    held: &mut [u32; 512],
    next_in: &mut [u16; 128],
    kept: &mut [u8; 256],
    s: &[u8],
    space: &mut [u8],
) -> Stepped
    ensures { (result ≡ stepped_in space.old (take_init_ack (length space.old) (bare head) s.now))
        × (held.new ≡ cleared_if (is_taken s.now) 512 held.old)
        × (next_in.new ≡ cleared_if (is_taken s.now) 128 next_in.old)
        × (kept.new ≡ kept_if (is_taken s.now) s.now kept.old)
        × (space.new ≡ wrote_bytes space.old (take_init_ack (length space.old) (bare head) s.now).reply) }
{
    let v = chunks::init::read_init(s);
    if opening::is_poor(v) {
        return Stepped::refused(head, 8, Named::NoCall);
    }
    let p = parameters::parameter::cookie(s);
    if opening::is_odd(p.len) {
        return Stepped::refused(head, 8, Named::NoCall);
    }
    if parameters::parameter::has_host_name(s) {
        let h = parameters::parameter::host_name(s);
        let n = chunks::cause::write_abort_address(space, false, &s[h.at..h.at + h.len]);
        return Stepped::answering(
            head.moved(State::Closed),
            Event::Down(Reason::HostName),
            v.tag,
            n,
        );
    }
    let cookie = &s[p.at..p.at + p.len];
    echo_back(head, held, next_in, kept, v, cookie, s, space)
}

#[tactic(auto, unfolding(steps::specs::Opening::established))]
fn established(head: Head, source: u16, m: Made) -> Head
    ensures { result ≡ association_head (established (bare head) source m) }
{
    let ends = Ends {
        local_port: head.ends.local_port,
        peer_port: source,
        my_tag: m.my_tag,
        peer_tag: m.peer_tag,
        streams_in: m.streams_in,
        streams_out: m.streams_out,
        options: m.options,
    };
    Head::started(
        State::Established,
        ends,
        m.my_tsn,
        m.window,
        m.peer_tsn,
        head.sender.mode,
    )
}

// All tables begin.
fn clear(
    held: &mut [u32; 512],
    next_in: &mut [u16; 128],
    places: &mut [u32; 1024],
    next_out: &mut [u16; 128],
    kept: &mut [u8; 256],
)
    ensures { (held.new ≡ replicate 512 0)
        × (next_in.new ≡ replicate 128 0)
        × (places.new ≡ replicate 1024 0)
        × (next_out.new ≡ replicate 128 0)
        × (kept.new ≡ replicate 256 0) }
{
    tables::held::clear(held);
    tables::ssns::clear(next_in);
    tables::place::clear(places);
    tables::ssns::clear(next_out);
    flat::fresh::clear_cookie(kept);
}

// The peer's tag alone changes.
#[tactic(auto, unfolding(steps::specs::Meeting::with_peer_tag))]
fn retagged(mut head: Head, tag: u32) -> Head
    ensures { result ≡ association_head (with_peer_tag (bare head) tag) }
{
    head.ends.peer_tag = tag;
    head
}

// A restart in SHUTDOWN-ACK-SENT: the SHUTDOWN ACK again, and behind it an ERROR with cause 10.
fn refuse_restart(head: Head, m: Made, space: &mut [u8]) -> Stepped
    ensures { (result ≡ stepped_in space.old (stays (length space.old) (bare head) m Restart)) × (space.new ≡ wrote_bytes space.old (stays (length space.old) (bare head) m Restart).reply) }
{
    let n = chunks::shutdown::write_shutdown_ack(space);
    let k = chunks::cause::write_caused(&mut space[n..], 9, 0, 10, b"");
    Stepped::accepted(head, Event::NoEvent, n + k).ending()
}

// A good echo that starts nothing.
fn stay(head: Head, m: Made, action: Action, space: &mut [u8]) -> Stepped
    ensures { (result ≡ stepped_in space.old (stays (length space.old) (bare head) m action)) × (space.new ≡ wrote_bytes space.old (stays (length space.old) (bare head) m action).reply) }
{
    match action {
        Action::Restart => refuse_restart(head, m, space),
        Action::Retag => {
            let n = chunks::cookie::write_cookie_ack(space);
            Stepped::accepted(retagged(head, m.peer_tag), Event::Retagged, n)
        }
        Action::Again => {
            let n = chunks::cookie::write_cookie_ack(space);
            Stepped::accepted(head, Event::NoEvent, n)
        }
        Action::Late => Stepped::accepted(head, Event::NoEvent, 0).ending(),
        Action::Outside => Stepped::refused(head, 7, Named::NoCall).ending(),
    }
}

// A good echo, by what table 12 says to do.
fn act(
    head: Head,
    held: &mut [u32; 512],
    next_in: &mut [u16; 128],
    places: &mut [u32; 1024],
    next_out: &mut [u16; 128],
    kept: &mut [u8; 256],
    m: Made,
    action: Action,
    source: u16,
    space: &mut [u8],
) -> Stepped
    ensures { (result ≡ stepped_in space.old (acts (length space.old) (bare head) source m action))
        × (held.new ≡ cleared_if (starts_anew action head.state) 512 held.old)
        × (next_in.new ≡ cleared_if (starts_anew action head.state) 128 next_in.old)
        × (places.new ≡ cleared_if (starts_anew action head.state) 1024 places.old)
        × (next_out.new ≡ cleared_if (starts_anew action head.state) 128 next_out.old)
        × (kept.new ≡ cleared_if (starts_anew action head.state) 256 kept.old)
        × (space.new ≡ wrote_bytes space.old (acts (length space.old) (bare head) source m action).reply) }
{
    if meeting::starts(action, head.state) {
        clear(held, next_in, places, next_out, kept);
        let after = established(head, source, m);
        let event = meeting::started_as(action, head.state);
        let n = chunks::cookie::write_cookie_ack(space);
        return Stepped::accepted(after, event, n);
    }
    stay(head, m, action, space)
}

// A COOKIE ECHO that is the first chunk of its packet. Refused, it leaves the rest of the packet unread.
pub fn read_echo(
    head: Head,
    held: &mut [u32; 512],
    next_in: &mut [u16; 128],
    places: &mut [u32; 1024],
    next_out: &mut [u16; 128],
    kept: &mut [u8; 256],
    echoed: Echoed,
    source: u16,
    s: &[u8],
    space: &mut [u8],
) -> Stepped
    ensures { (result ≡ stepped_in space.old (read_echo (length space.old) (bare head) echoed source s.now))
        × (held.new ≡ cleared_if (is_starting head.state head.ends echoed s.now) 512 held.old)
        × (next_in.new ≡ cleared_if (is_starting head.state head.ends echoed s.now) 128 next_in.old)
        × (places.new ≡ cleared_if (is_starting head.state head.ends echoed s.now) 1024 places.old)
        × (next_out.new ≡ cleared_if (is_starting head.state head.ends echoed s.now) 128 next_out.old)
        × (kept.new ≡ cleared_if (is_starting head.state head.ends echoed s.now) 256 kept.old)
        × (space.new ≡ wrote_bytes space.old (read_echo (length space.old) (bare head) echoed source s.now).reply) }
{
    let p = chunks::cookie::cookie(s);
    if opening::is_odd(p.len) {
        return Stepped::refused(head, 8, Named::NoCall).ending();
    }
    match echoed {
        Echoed::Good(m) => {
            let action = meeting::action_of(head.state, head.ends, m);
            act(
                head, held, next_in, places, next_out, kept, m, action, source, space,
            )
        }
        Echoed::Stale(_) => Stepped::refused(head, 27, Named::ErrorStale).ending(),
        Echoed::Bad => Stepped::refused(head, 27, Named::NoCall).ending(),
    }
}
