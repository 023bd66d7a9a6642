// Which places of a lent table go into the next packet, and the next SSNs after it.
#![tactic(auto)]

ghost use Rattle.std.specs.Prelude.{◌≡◌, ◌+◌, ◌<◌, ◌≤◌, []};
ghost use Rattle.path.specs.Sizes.{rail_sizes};
ghost use Rattle.numbers.specs.Profile.{rail};
ghost use Rattle.places.specs.Places.{weight_of};
ghost use Rattle.sending.specs.Sending.{with_flight};
ghost use Rattle.sending.specs.Choose.{better_place, best_place, goes, next_ssn, tsn_of};
ghost use Rattle.sending.specs.ChoosePartsLaws.{loaded_by};
ghost use Rattle.tables.specs.PlaceWords.{places_of};
ghost use Rattle.tables.specs.Ssns.{ssns_of};
ghost use Rattle.sender.specs.Seen.{sending_shown};
ghost use Rattle.choice.specs.Fill.{counted_in, sent_place, sent_head, load_after, filled_in};

use numbers::{Rail, Ssn, Tsn};
use path::{Path, RailPath};
use places::{Chunk, Place};
use sender::Sender;
use sending::choosing;
use sending::choosing::{Best, Load};

// The head after a packet, and the packet.
#[derive(Clone, Copy)]
pub struct Packed {
    pub head: Sender,
    pub load: Load,
}

// Place i against the best so far.
fn better(b: Best, i: usize, p: Place, acked: Tsn, oldest: u32) -> Best
    requires { (b.place < 128) × (i < 128) }
    ensures { (result ≡ better_place acked oldest b i p) × (result.place < 128) }
{
    let k = choosing::rank(p, acked, oldest);
    if k < b.rank {
        Best { rank: k, place: i }
    } else {
        b
    }
}

// The best of all places.
fn best_of(t: &[u32; 1024], acked: Tsn, oldest: u32) -> Best
    ensures { (result ≡ best_place acked oldest (places_of rail t.now)) × (result.place < 128) }
{
    let mut b = Best {
        rank: Best::NONE,
        place: 0,
    };
    for i in 0..Rail::PLACES {
        let p = tables::place::place_at(t, i);
        b = better(b, i, p, acked, oldest);
    }
    b
}

// Whether the next one goes.
fn goes(s: Sender, l: Load, b: Best, p: Place) -> bool
    ensures { result ≡ goes (loaded_by (sending_shown rail s [] []) l) b p }
{
    let path = s.path;
    if Best::NONE <= b.rank || path.control.cwnd <= path.flight {
        return false;
    }
    if l.room < choosing::size(p) {
        return false;
    }
    let window = s.advertised.saturating_sub(l.payload);
    b.rank < Best::WAITING || path.flight == 0 || u32::from(p.chunk.len) <= window
}

// SSN 0 if unordered.
fn next_ssn(ns: &[u16; 128], c: Chunk) -> Ssn
    ensures { result ≡ next_ssn rail (ssns_of rail ns.now) c }
{
    if c.unordered {
        Ssn(0)
    } else {
        tables::ssns::ssn_at(ns, usize::from(c.stream.0))
    }
}

// The SSN rises when the last chunk of an ordered message is first sent.
fn count_on(ns: &mut [u16; 128], p: Place)
    ensures { ns.new ≡ counted_in rail ns.old p }
{
    let c = p.chunk;
    if p.status != Place::MARKED && !c.unordered && c.end {
        let i = usize::from(c.stream.0);
        let n = tables::ssns::ssn_at(ns, i).after(1);
        tables::ssns::put_ssn(ns, i, n);
    }
}

// The place as it goes out.
fn sent_place(s: Sender, ns: &[u16; 128], mut p: Place) -> Place
    ensures { result ≡ sent_place rail s ns.now p }
{
    if p.status != Place::MARKED {
        p.chunk.ssn = next_ssn(ns, p.chunk);
        p.chunk.tsn = s.next_tsn;
    }
    p.status = Place::FLYING;
    p
}

// The path with the place in flight.
fn flown(mut path: Path, q: Place) -> Path
    requires { path.flight ≤ 4294900000 }
    ensures { (result ≡ with_flight path (path.flight + weight_of q)) × (result.flight ≤ path.flight + 65551) }
{
    path.flight += q.weight();
    path
}

// The head after a place went out.
fn sent_head(mut s: Sender, p: Place) -> Sender
    requires { s.path.flight ≤ 4294900000 }
    ensures { (result ≡ sent_head s p) × (result.path.flight ≤ s.path.flight + 65551) }
{
    s.path = flown(s.path, p);
    if p.status != Place::MARKED {
        s.next_tsn = s.next_tsn.after(1);
        s.oldest = s.oldest.wrapping_add(1);
    }
    s
}

// The TSN that a place goes out with.
fn tsn_of(s: Sender, p: Place) -> Tsn
    ensures { result ≡ tsn_of (sending_shown rail s [] []) p }
{
    if p.status == Place::MARKED {
        p.chunk.tsn
    } else {
        s.next_tsn
    }
}

// The packet with place i more, which holds p.
fn loaded(s: Sender, mut l: Load, i: usize, p: Place) -> Load
    requires { (i < 128) × (l.count < 26) × (l.payload ≤ 4294900000) }
    ensures { (result ≡ load_after s l i p) × (result.count ≡ l.count + 1) × (result.payload ≤ l.payload + 65535) }
{
    l.last = tsn_of(s, p);
    l.first = choosing::first_of(l, l.last);
    l.resent = choosing::is_again(l, p);
    l.payload += u32::from(p.chunk.len);
    l.room = l.room.saturating_sub(choosing::size(p));
    l.places[l.count] = i as u16;
    l.count += 1;
    l
}

// What goes into the next packet; nothing, where `count` is 0.
pub fn choose(mut s: Sender, t: &mut [u32; 1024], ns: &mut [u16; 128]) -> Packed
    ensures head_value { (result.head ≡ (filled_in rail_sizes rail s t.old ns.old).head) × (result.load ≡ (filled_in rail_sizes rail s t.old ns.old).load) }
    ensures t_after { (t.new ≡ (filled_in rail_sizes rail s t.old ns.old).words) × (ns.new ≡ (filled_in rail_sizes rail s t.old ns.old).ns) }
{
    let w = marks::tallied(t, s.acked);
    s.path.flight = w.flight;
    let mut l = Load {
        payload: w.payload,
        room: RailPath::ROOM,
        count: 0,
        places: [0; RailPath::BUNDLED],
        resent: false,
        first: Tsn(0),
        last: Tsn(0),
    };
    for _n in 0..RailPath::BUNDLED {
        let b = best_of(t, s.acked, s.oldest);
        let p = tables::place::place_at(t, b.place);
        if !goes(s, l, b, p) {
            return Packed { head: s, load: l };
        }
        l = loaded(s, l, b.place, p);
        let q = sent_place(s, ns, p);
        tables::place::put_place(t, b.place, q);
        count_on(ns, p);
        s = sent_head(s, p);
    }
    Packed { head: s, load: l }
}
