// The bounds of a receiving side whose held chunks are lent as words: "record outside its bounds" is answered 1 by who asks this test.
ghost use Rattle.std.specs.Prelude.{◌≡◌, false, [], ◌+◌, ◌^◌, ◌%◌, ◌<◌, ◌≤◌, take, get_or, ltb, IfSome};
ghost use Rattle.numbers.specs.Numbering.{ring, ahead_on};
ghost use Rattle.numbers.specs.Profile.{rail};
ghost use Rattle.numbers.specs.Come.{highest};
ghost use Rattle.scans.specs.Scan.{any};
ghost use Rattle.holding.specs.Held.{holds};
ghost use Rattle.delivery.specs.ReceivingBounds.{is_receiving_sound};
ghost use Rattle.delivery.specs.ReceivingBoundsLaws.{low_weight};
ghost use Rattle.delivery.specs.LowLaws.{low_flag_at, low_by_flag};
ghost use Rattle.tables.specs.HeldWords.{held_of};
ghost use Rattle.reception.specs.Reception.{receiving_shown};
ghost use Rattle.reception.specs.ReadLaws.{itself};

use delivery::receiving;
use numbers::{Keeping, Rail, Tsn};
use tables::held;
use taking::choosing;

// Whether one of the first places holds the chunk of the number.
fn is_held_before(words: &[u32; held::WORDS], place: usize, tsn: Tsn) -> bool
    requires { place ≤ 128 }
    ensures { result ≡ any (holds tsn.0) (take place (held_of rail words.now)) }
{
    for before in 0..place {
        if held::is_of(words, before, tsn) {
            return true;
        }
    }
    false
}

// The slot in which a number is noted.
fn slot(tsn: Tsn) -> usize
    ensures { (result ≡ tsn.0 % 128) × (result < 128) }
{
    (tsn.0 % 128) as usize
}

// Whether one of the flags is set. The loop does not end early, so that a machine may take many flags at a time.
fn has_come(flags: &[bool]) -> bool
    ensures { result ≡ any itself flags.now }
{
    let mut some = false;
    for &flag in flags {
        some |= flag;
    }
    some
}

// Whether a held chunk of the number is low. Where nothing above the point has come, every one is, and no flag is read.
fn is_low_at(point: Tsn, come: &[bool; Rail::PLACES], some: bool, tsn: Tsn) -> bool
    requires { some ≡ any itself come.now }
    ensures { result ≡ low_by_flag rail (ahead_on (ring (2 ^ 32)) point.0 tsn.0) (get_or come.now (low_flag_at rail (ahead_on (ring (2 ^ 32)) point.0 tsn.0)) false) }
{
    !some || receiving::is_low(come, numbers::keeping::ahead_of(point, tsn))
}

// How many held chunks are low, if none is unfit and no number is held twice. Only where a slot is noted is a number compared with
// all before it. Where nothing is held nothing is noted.
fn weight(keeping: Keeping, words: &[u32; held::WORDS]) -> Option<usize>
    ensures { (result ≡ low_weight (ring (2 ^ 32)) rail keeping (held_of rail words.now)) × IfSome result (λ low. low ≤ 128) }
{
    let Some(first) = choosing::next_used(words, 0) else {
        return Some(0);
    };
    // Taken out first: lent where it lies, all of number-keeping is copied to have an address.
    let come = keeping.come;
    let some = has_come(&come);
    let mut low = 0;
    let mut seen = [false; Rail::PLACES];
    let mut from = first;
    while let Some(place) = choosing::next_used(words, from) {
        let h = held::held_at(words, place);
        if Rail::is_misfit(h.len, h.stream) {
            return None;
        }
        low += usize::from(is_low_at(keeping.point, &come, some, h.tsn));
        let d = slot(h.tsn);
        if seen[d] && is_held_before(words, place, h.tsn) {
            return None;
        }
        seen[d] = true;
        from = place + 1;
    }
    Some(low)
}

// Whether the highest offset come and so many low chunks are more than there are places: a flag is set that may not be.
fn is_over(come: &[bool; Rail::PLACES], low: usize) -> bool
    requires { low ≤ 128 }
    ensures { result ≡ ltb 128 (highest come.now + low) }
{
    has_come(&come[Rail::PLACES - low..])
}

// Whether number-keeping and the places are within their bounds; any next expected SSNs are.
pub fn is_sound(keeping: Keeping, words: &[u32; held::WORDS]) -> bool
    ensures { result ≡ is_receiving_sound (ring (2 ^ 32)) rail (receiving_shown rail keeping words.now []) }
{
    if !keeping.within_bounds() {
        return false;
    }
    let Some(low) = weight(keeping, words) else {
        return false;
    };
    let come = keeping.come;
    low < 1 || !is_over(&come, low)
}
