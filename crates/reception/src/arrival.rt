// A chunk arrives: document 01's checks in their order, with those of 02, over held chunks that are lent as words.
ghost use Rattle.std.specs.Prelude.{◌≡◌, ◌^◌, ◌<◌, ◌≤◌, length};
ghost use Rattle.numbers.specs.Numbering.{ring, circles};
ghost use Rattle.numbers.specs.Profile.{rail};
ghost use Rattle.numbers.specs.Keeping.{marked_come};
ghost use Rattle.scans.specs.Scan.{find_from};
ghost use Rattle.holding.specs.Held.{as_held, is_held_free};
ghost use Rattle.tables.specs.HeldWords.{held_of};
ghost use Rattle.tables.specs.Ssns.{ssns_of};
ghost use Rattle.delivery.specs.LookLaws.{Looked};
ghost use Rattle.delivery.specs.Arrival.{is_wedged, verdict_of, payload_stored, arrival_area};
ghost use Rattle.reception.specs.Reception.{receiving_shown, words_kept, words_after, arrival_told};

use delivery::arrival::Look;
use delivery::{Verdict, arrival, receiving};
use holding::{Chunk, Held};
use numbers::{Keeping, Rail, Tsn};
use tables::held;
use taking::choosing;

// The verdict, and number-keeping after it.
#[derive(Clone, Copy)]
pub struct Arrived {
    pub verdict: Verdict,
    pub keeping: Keeping,
}

// What the held chunks say of a chunk that comes.
fn look_for(keeping: Keeping, words: &[u32; held::WORDS], c: Chunk) -> Look
    ensures { Looked (ring (2 ^ 32)) rail keeping (held_of rail words.now) c result }
{
    let come = keeping.come;
    let new = Held::of(c, 0);
    let mut low = 0;
    let mut held = false;
    let mut clash = false;
    let mut from = 0;
    while let Some(place) = choosing::next_used(words, from) {
        let h = held::held_at(words, place);
        low += usize::from(receiving::is_low(&come, keeping.offset(h.tsn)));
        held |= h.is_of(new.tsn);
        clash |= arrival::contradict(h, new);
        from = place + 1;
    }
    Look { low, held, clash }
}

// The lowest free place.
fn first_free(words: &[u32; held::WORDS]) -> Option<usize>
    ensures { result ≡ find_from is_held_free 0 (held_of rail words.now) }
{
    for place in 0..Rail::PLACES {
        if !held::is_used(words, place) {
            return Some(place);
        }
    }
    None
}

// Whether the held chunks that are low fill the places, and no message can be taken.
#[tactic(auto, unfolding(delivery::specs::Arrival::is_wedged))]
fn is_wedged(
    low: usize,
    words: &[u32; held::WORDS],
    next: &[u16; Rail::STREAMS],
    point: Tsn,
) -> bool
    ensures { result ≡ is_wedged circles rail low (held_of rail words.now) (ssns_of rail next.now) point.0 }
{
    low == Rail::PLACES && !choosing::can_take(words, next, point)
}

// The verdict on a chunk with a payload of so many bytes.
fn judge(
    keeping: Keeping,
    words: &[u32; held::WORDS],
    next: &[u16; Rail::STREAMS],
    w: Look,
    c: Chunk,
    len: usize,
    streams: u16,
) -> Verdict
    requires { Looked (ring (2 ^ 32)) rail keeping (held_of rail words.now) c w }
    ensures { result ≡ verdict_of circles rail (receiving_shown rail keeping words.now next.now) (as_held c len) streams }
{
    if len < 1 {
        return Verdict::Empty;
    }
    if Rail::PAYLOAD < len {
        return Verdict::Long;
    }
    let j = keeping.point.judge(c.tsn, (Rail::PLACES - w.low) as u32);
    if arrival::is_opposite(j) {
        return Verdict::Opposite;
    }
    if arrival::is_old(j) || arrival::is_repeat(keeping, w.held, c.tsn) {
        return Verdict::Duplicate;
    }
    if is_wedged(w.low, words, next, keeping.point) {
        return Verdict::Wedged;
    }
    if arrival::is_beyond(j) {
        return Verdict::Far;
    }
    if !Rail::is_agreed(c.stream, streams) {
        return Verdict::Stray;
    }
    if w.clash {
        return Verdict::Clashing;
    }
    Verdict::Kept
}

// The chunk is held in the lowest free place, its payload there in the area; its number comes.
fn keep(
    keeping: Keeping,
    words: &mut [u32; held::WORDS],
    area: &mut [u8],
    c: Chunk,
    payload: &[u8],
) -> Keeping
    requires { length payload.now ≤ 512 }
    ensures { (result ≡ marked_come (ring (2 ^ 32)) rail keeping c.tsn.0) × (words.new ≡ words_kept rail words.old (as_held c (length payload.now)) (find_from is_held_free 0 (held_of rail words.old))) × (area.new ≡ payload_stored rail area.old payload.now (find_from is_held_free 0 (held_of rail words.old))) }
{
    if let Some(place) = first_free(words) {
        let h = Held::of(c, payload.len() as u16);
        held::put_held(words, place, h);
        octets::bytes::put_all(area, Rail::PAYLOAD * place, payload);
    }
    keeping.mark(c.tsn)
}

// A chunk arrives with its payload, in an association of so many agreed streams.
pub fn arrive(
    keeping: Keeping,
    words: &mut [u32; held::WORDS],
    next: &[u16; Rail::STREAMS],
    area: &mut [u8],
    c: Chunk,
    payload: &[u8],
    streams: u16,
) -> Arrived
    ensures { (result ≡ arrival_told circles rail (receiving_shown rail keeping words.old next.now) (as_held c (length payload.now)) streams) × (words.new ≡ words_after circles rail (receiving_shown rail keeping words.old next.now) words.old (as_held c (length payload.now)) streams) × (area.new ≡ arrival_area circles rail (receiving_shown rail keeping words.old next.now) (as_held c (length payload.now)) streams area.old payload.now) }
{
    let w = look_for(keeping, words, c);
    let verdict = judge(keeping, words, next, w, c, payload.len(), streams);
    match verdict {
        Verdict::Kept => Arrived {
            verdict,
            keeping: keep(keeping, words, area, c, payload),
        },
        Verdict::Duplicate => Arrived {
            verdict,
            keeping: keeping.list(c.tsn),
        },
        Verdict::Stray => Arrived {
            verdict,
            keeping: keeping.mark(c.tsn),
        },
        _ => Arrived { verdict, keeping },
    }
}
