// All places of a lent table at once: a pass for each step of a SACK, T3's marking, and the sums. A free place is not read beyond its status.
#![tactic(auto)]

ghost use Rattle.std.specs.Prelude.{◌≡◌, map, ◌≤◌};
ghost use Rattle.scans.specs.Scan.{count, total};
ghost use Rattle.numbers.specs.Profile.{rail};
ghost use Rattle.places.specs.Places.{marked_for_resend, missed, has_status, flight_of, tallied, is_empty};
ghost use Rattle.places.specs.Sack.{sack_taken_in, place_settled};
ghost use Rattle.tables.specs.PlaceWords.{places_of};
ghost use Rattle.tables.specs.PlaceStates.{states_by};
ghost use Rattle.marks.specs.MarkingLaws.{never, missing};

use numbers::{Rail, Tsn};
use places::{Place, Sack, Tally, sack};

// What a SACK newly acknowledges: the bytes, and the highest offset.
#[derive(Clone, Copy)]
pub struct Took {
    pub newly: u32,
    pub highest: u32,
}

// After misses: whether a chunk came to three, the flight, whether anything is outstanding, and the highest offset of that.
// Kept as it is: `last` is 0 where nothing is left, by the definition `missing`, and is read only beside the flag.
#[derive(Clone, Copy)]
pub struct Missing {
    pub struck: bool,
    pub flight: u32,
    pub left: bool,
    pub last: u32,
}

// Freed, acknowledged, outstanding again.
pub fn taken_in(k: Sack, t: &mut [u32; 1024], from: Tsn) -> Took
    ensures newly_after { (result.newly ≡ (sack_taken_in k from (places_of rail t.old)).newly) × (result.highest ≡ (sack_taken_in k from (places_of rail t.old)).highest) }
    ensures t_after { t.new ≡ states_by rail (has_status 0) (place_settled k) t.old }
{
    let mut newly: u32 = 0;
    let mut highest: u32 = 0;
    for i in 0..Rail::PLACES {
        if tables::place::status_at(t, i) == Place::FREE {
            continue;
        }
        let p = tables::place::place_at(t, i);
        // Written on each way by itself: written before the question, every way asks what most places are spared.
        let q = k.settled(p);
        if q.status == p.status {
            tables::place::put_state(t, i, q);
            continue;
        }
        newly += sack::newly_bytes(p, q);
        highest = highest.max(sack::newly_offset(p, q, from));
        tables::place::put_state(t, i, q);
    }
    Took { newly, highest }
}

// Misses, and the sums over the places that they leave.
pub fn missed_all(t: &mut [u32; 1024], from: Tsn, limit: u64) -> Missing
    ensures value { result ≡ missing from limit (places_of rail t.old) }
    ensures t_after { t.new ≡ states_by rail (has_status 0) (missed from limit) t.old }
{
    let mut struck = false;
    let mut flight: u32 = 0;
    let mut left = false;
    let mut last: u32 = 0;
    for i in 0..Rail::PLACES {
        if tables::place::status_at(t, i) == Place::FREE {
            continue;
        }
        // Two ways, and not one for both: with one it was measured 6 to 11 ns slower where few places are used.
        let p = tables::place::place_at(t, i);
        if p.gets(from, limit) {
            let q = p.missed(from, limit);
            struck |= p.reaches(from, limit);
            flight += q.flight();
            left |= q.is_outstanding();
            last = last.max(q.last(from));
            tables::place::put_state(t, i, q);
            continue;
        }
        flight += p.flight();
        left |= p.is_outstanding();
        last = last.max(p.last(from));
        tables::place::put_state(t, i, p);
    }
    Missing {
        struck,
        flight,
        left,
        last,
    }
}

// T3, and the flight that it leaves.
pub fn marked_all(t: &mut [u32; 1024]) -> u32
    ensures value { result ≡ total flight_of (map marked_for_resend (places_of rail t.old)) }
    ensures t_after { t.new ≡ states_by rail never marked_for_resend t.old }
{
    let mut flight: u32 = 0;
    for i in 0..Rail::PLACES {
        let q = tables::place::place_at(t, i).marked();
        flight += q.flight();
        tables::place::put_state(t, i, q);
    }
    flight
}

// The sums over all places.
pub fn tallied(t: &[u32; 1024], from: Tsn) -> Tally
    ensures { (result ≡ tallied from (places_of rail t.now)) × (result.flight ≤ 8390528) × (result.payload ≤ 8388480) }
{
    let mut flight: u32 = 0;
    let mut payload: u32 = 0;
    let mut left = false;
    let mut last: u32 = 0;
    for i in 0..Rail::PLACES {
        let p = tables::place::place_at(t, i);
        flight += p.flight();
        payload += p.payload();
        left |= p.is_outstanding();
        last = last.max(p.last(from));
    }
    Tally {
        flight,
        payload,
        left,
        last,
    }
}

// How many places have a status.
// The status is a number as in `Place`.
pub fn having(t: &[u32; 1024], status: u8) -> usize
    ensures { (result ≡ count (has_status status) (places_of rail t.now)) × (result ≤ 128) }
{
    let mut n: usize = 0;
    for i in 0..Rail::PLACES {
        if tables::place::status_at(t, i) == status {
            n += 1;
        }
    }
    n
}

// Whether nothing waits, is outstanding or is acknowledged by a block.
pub fn is_empty(t: &[u32; 1024]) -> bool
    ensures { result ≡ is_empty (places_of rail t.now) }
{
    having(t, Place::FREE) == Rail::PLACES
}
