// What can happen to an association: every call of the host, with what the host says beside the lent buffers.
ghost use Rattle.std.specs.Prelude.{◌≡◌};
ghost use Rattle.events.specs.Event.{value_at, tsn_at, stream_at, streams_at, port_at, options_at, lent_of, made_of, associate_of, hand_in_of, stale_of, event_of};

use calls::Reason;
use numbers::{StreamId, Tsn};
use steps::{Echoed, Lent, Made};

#[derive(Clone, Copy)]
pub enum Event {
    // A packet arrives, with what is lent for an INIT and the word on an echoed cookie.
    Packet(Lent, Echoed),
    // Our tag, our first TSN, the peer's port, the streams wanted.
    Associate(u32, Tsn, u16, u16),
    // The stream, whether unordered, the payload protocol identifier.
    HandIn(StreamId, bool, u32),
    Transmit,
    Take,
    Acknowledge,
    T1,
    T2,
    T3,
    Shutdown,
    Abort(Reason),
    // The stream, which may be one that no chunk can name.
    ErrorStream(u32),
    // The port and tag of the cookie's peer, and how late the cookie was.
    ErrorStale(u16, u32, u32),
    // The value, in two halves.
    Heartbeat(u32, u32),
    Sample(u32),
    // A number that names no event.
    Unknown,
}

// A value past the end is 0.
fn value(values: &[u32], i: usize) -> u32
    ensures { result ≡ value_at values.now i }
{
    values.get(i).copied().unwrap_or(0)
}

// No more than 65,535.
fn streams(values: &[u32], i: usize) -> u16
    ensures { result ≡ streams_at values.now i }
{
    u16::try_from(value(values, i)).unwrap_or(u16::MAX)
}

// 0 for a number over 65,535.
fn port(values: &[u32], i: usize) -> u16
    ensures { result ≡ port_at values.now i }
{
    u16::try_from(value(values, i)).unwrap_or(0)
}

// No more than 255.
fn options(values: &[u32], i: usize) -> u8
    ensures { result ≡ options_at values.now i }
{
    u8::try_from(value(values, i)).unwrap_or(u8::MAX)
}

fn tsn(values: &[u32], i: usize) -> Tsn
    ensures { result ≡ tsn_at values.now i }
{
    Tsn(value(values, i))
}

fn stream(values: &[u32], i: usize) -> StreamId
    ensures { result ≡ stream_at values.now i }
{
    StreamId(streams(values, i))
}

fn lent_of(values: &[u32]) -> Lent
    ensures { result ≡ lent_of values.now }
{
    Lent {
        tag: value(values, 0),
        tsn: tsn(values, 1),
        streams: streams(values, 2),
        options: options(values, 13),
    }
}

fn made_of(values: &[u32]) -> Made
    ensures { result ≡ made_of values.now }
{
    Made {
        my_tag: value(values, 3),
        peer_tag: value(values, 4),
        streams_in: streams(values, 5),
        streams_out: streams(values, 6),
        my_tsn: tsn(values, 7),
        peer_tsn: tsn(values, 8),
        window: value(values, 9),
        my_tie: value(values, 10),
        peer_tie: value(values, 11),
        options: options(values, 12),
    }
}

fn associate_of(values: &[u32]) -> Event
    ensures { result ≡ associate_of values.now }
{
    Event::Associate(
        value(values, 0),
        tsn(values, 1),
        port(values, 2),
        streams(values, 3),
    )
}

fn hand_in_of(values: &[u32], unordered: bool) -> Event
    ensures { result ≡ hand_in_of values.now unordered }
{
    Event::HandIn(stream(values, 0), unordered, value(values, 1))
}

fn stale_of(values: &[u32]) -> Event
    ensures { result ≡ stale_of values.now }
{
    Event::ErrorStale(port(values, 0), value(values, 1), value(values, 2))
}

impl Event {
    // An event by its number and its values.
    // Kept as it is: an event's number is the host's, read here and nowhere else.
    #[tactic(auto, unfolding(crate::specs::Event::event_of))]
    pub fn of(code: u8, values: &[u32]) -> Event
        ensures { result ≡ event_of code values.now }
    {
        match code {
            0 => Event::Packet(lent_of(values), Echoed::Bad),
            1 => Event::Packet(lent_of(values), Echoed::Stale(made_of(values))),
            2 => Event::Packet(lent_of(values), Echoed::Good(made_of(values))),
            3 => associate_of(values),
            4 => hand_in_of(values, false),
            5 => hand_in_of(values, true),
            6 => Event::Transmit,
            7 => Event::Take,
            8 => Event::Acknowledge,
            9 => Event::T1,
            10 => Event::T2,
            11 => Event::T3,
            12 => Event::Shutdown,
            13 => Event::Abort(Reason::User),
            14 => Event::Abort(Reason::NoData(tsn(values, 0))),
            15 => Event::Abort(Reason::Violation),
            16 => Event::ErrorStream(value(values, 0)),
            17 => stale_of(values),
            18 => Event::Heartbeat(value(values, 0), value(values, 1)),
            19 => Event::Sample(value(values, 0)),
            _ => Event::Unknown,
        }
    }
}
