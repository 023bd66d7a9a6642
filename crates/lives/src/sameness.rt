// The numbers of a record, and whether two records are the same in every field and in every word.
use flat::{Association, Head};
use numbers::Keeping;
use path::Path;
use places::Place;
use sender::Sender;
use states::State;

// A state by a number: 256 for each that RFC 9260 names before it, and its tries.
fn code(s: State) -> u16 {
    match s {
        State::Closed => 0,
        State::CookieWait(n) => 256 + u16::from(n),
        State::CookieEchoed(n) => 512 + u16::from(n),
        State::Established => 768,
        State::ShutdownPending => 1024,
        State::ShutdownSent(n) => 1280 + u16::from(n),
        State::ShutdownReceived => 1536,
        State::ShutdownAckSent(n) => 1792 + u16::from(n),
    }
}

// What a line shows of a record, in its order; of the ends, the sender and the path, behind that, what no line shows.
pub(crate) fn ends_of(h: &Head) -> [u64; 8] {
    [
        u64::from(h.ends.local_port),
        u64::from(h.ends.peer_port),
        u64::from(h.ends.my_tag),
        u64::from(h.ends.peer_tag),
        u64::from(h.ends.streams_in),
        u64::from(h.ends.streams_out),
        u64::from(h.cookie_len),
        u64::from(h.ends.options),
    ]
}

pub(crate) fn come_of(k: &Keeping, held: &[u32; 512]) -> [u64; 4] {
    [
        u64::from(k.point.0),
        k.highest() as u64,
        taking::choosing::free_places(held) as u64,
        k.listed as u64,
    ]
}

pub(crate) fn placed_of(places: &[u32; 1024]) -> [u64; 4] {
    [Place::WAITING, Place::FLYING, Place::MARKED, Place::BLOCKED].map(|status| marks::having(
        places, status,
    ) as u64)
}

pub(crate) fn going_of(s: &Sender) -> [u64; 5] {
    [
        u64::from(s.acked.0),
        u64::from(s.next_tsn.0),
        u64::from(s.advertised),
        s.oldest as u64,
        u64::from(s.mode),
    ]
}

pub(crate) fn path_of(p: &Path) -> [u64; 11] {
    [
        u64::from(p.flight),
        u64::from(p.control.cwnd),
        u64::from(p.control.ssthresh),
        u64::from(p.control.partial),
        u64::from(p.running),
        u64::from(p.clock.rto),
        u64::from(p.tries),
        u64::from(p.until.0),
        u64::from(p.clock.sampled),
        u64::from(p.clock.srtt),
        u64::from(p.clock.rttvar),
    ]
}

fn same_path(a: &Path, b: &Path) -> bool {
    path_of(a) == path_of(b)
}

fn same_sender(a: &Sender, b: &Sender) -> bool {
    going_of(a) == going_of(b) && same_path(&a.path, &b.path)
}

fn same_keeping(a: &Keeping, b: &Keeping) -> bool {
    a.point.0 == b.point.0
        && a.listed == b.listed
        && a.come == b.come
        && a.dups.iter().zip(&b.dups).all(|(x, y)| x.0 == y.0)
}

fn same_head(a: &Head, b: &Head) -> bool {
    code(a.state) == code(b.state)
        && ends_of(a) == ends_of(b)
        && same_keeping(&a.keeping, &b.keeping)
        && same_sender(&a.sender, &b.sender)
}

pub(crate) fn same_record(a: &Association, b: &Association) -> bool {
    same_head(&a.head, &b.head)
        && a.held == b.held
        && a.next_in == b.next_in
        && a.places == b.places
        && a.next_out == b.next_out
        && a.cookie == b.cookie
}
