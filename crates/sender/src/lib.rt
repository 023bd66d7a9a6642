// The sending side apart from its tables, which are lent: a small head by value, and the bounds of both.
#![tactic(auto)]

ghost use Rattle.std.specs.Prelude.{◌≡◌, not, true, false, List, [], ℕ, ◌<◌, ◌≤◌, eqb, ltb};
ghost use Rattle.scans.specs.Scan.{pick};
ghost use Rattle.path.specs.Sizes.{rail_sizes, sizes_of};
ghost use Rattle.numbers.specs.Profile.{rail};
ghost use Rattle.sending.specs.Sending.{fresh_sending, sent_above_point, sending_sampled, sending_backed_off, sending_heard};
ghost use Rattle.sending.specs.SendingBounds.{has_gap, is_bounded, is_sending_within};
ghost use Rattle.sending.specs.SurveyLaws.{Surveyed};
ghost use Rattle.tables.specs.PlaceWords.{places_of, place_at};
ghost use Rattle.sender.specs.Seen.{sending_shown, sender_head, is_blank, blank_for};

use numbers::{Rail, Tsn};
use path::{BookPath, Path};
use places::Place;
use sending::bounds;
use sending::bounds::Survey;

// Our point, the TSN that is next, the window last advertised, the order of the chunk that waits longest, the path, and the book: 0 RFC 9260,
// 1 RFC 4960.
// Kept as it is: the mode is a byte of the record, in which any may stand (refusal 1, `is_sending_within`).
#[derive(Clone, Copy)]
pub struct Sender {
    pub acked: Tsn,
    pub next_tsn: Tsn,
    pub advertised: u32,
    pub oldest: u32,
    pub path: Path,
    pub mode: u8,
}

impl Sender {
    // Nothing waits, and nothing was sent from `start` on.
    pub fn fresh(start: Tsn, advertised: u32, mode: u8) -> Sender
        ensures { result ≡ sender_head (fresh_sending (sizes_of mode) rail start advertised mode) }
    {
        Sender {
            acked: start.after(4294967295),
            next_tsn: start,
            advertised,
            oldest: 0,
            path: Path::fresh(mode),
            mode,
        }
    }

    // How many TSNs above our point were sent.
    pub fn room(self) -> u32
        ensures { result ≡ sent_above_point (sending_shown rail self [] []) }
    {
        numbers::keeping::ahead_of(self.acked, self.next_tsn).saturating_sub(1)
    }

    // A round trip of so many milliseconds was measured.
    pub fn sampled(mut self, sample: u32) -> Sender
        ensures { result ≡ sender_head (sending_sampled rail_sizes (sending_shown rail self [] []) sample) }
    {
        self.path = self.path.sampled(sample);
        self
    }

    // T1 or T2 expired: RTO doubled.
    pub fn doubled(mut self) -> Sender
        ensures { result ≡ sender_head (sending_backed_off rail_sizes (sending_shown rail self [] [])) }
    {
        self.path = self.path.doubled();
        self
    }

    // A HEARTBEAT ACK: T3's tries begin anew.
    pub fn heard(mut self) -> Sender
        ensures { result ≡ sender_head (sending_heard (sending_shown rail self [] [])) }
    {
        self.path = self.path.heard();
        self
    }
}

// Whether the place i is free and has no misses: one word is read.
fn is_blank(t: &[u32; 1024], i: usize) -> bool
    ensures { result ≡ is_blank (place_at rail t.now i) }
{
    let p = tables::place::place_at(t, i);
    p.status == Place::FREE && p.misses == 0
}

// Whether eight places from i on are there, and are free with no misses. Most are: eight words are read for them.
fn are_blank(t: &[u32; 1024], i: usize) -> bool
    ensures { result ≡ pick (ltb 120 i) false (blank_for rail t.now i 8) }
{
    if 120 < i {
        return false;
    }
    for j in i..i + 8 {
        if !is_blank(t, j) {
            return false;
        }
    }
    true
}

// How many places from the first on are free with no misses, counted by eights: past the last eight there are none.
fn blank_before(t: &[u32; 1024]) -> usize
    ensures { (blank_for rail t.now 0 result ≡ true) × (result ≤ 128) }
{
    let mut i: usize = 0;
    while are_blank(t, i) {
        i += 8;
    }
    i
}

// What one pass finds, where the places before `start` are free with no misses. Each arm does only what a place of its status asks for: where many are
// used, most are in flight. Whether eight are free is asked of none that is in flight. A `for` doesn't fit: the pass goes on by one or by eight;
// and with what the arms share said once before them it takes two fifths longer.
fn survey_of(t: &[u32; 1024], start: usize, acked: Tsn, oldest: u32) -> Survey
    requires { (blank_for rail t.now 0 start ≡ true) × (start ≤ 128) }
    ensures { Surveyed rail acked oldest (places_of rail t.now) result }
{
    let mut v = Survey {
        flight: 0,
        odd: false,
        sent: 0,
        waiting: 0,
        seen_sent: [false; bounds::SPOTS],
        seen_waiting: [false; bounds::SPOTS],
    };
    let mut i: usize = start;
    while i < Rail::PLACES {
        let p = tables::place::place_at(t, i);
        if p.status == Place::FLYING {
            v.odd = bounds::or_odd(v.odd, p);
            v.flight += p.weight();
            v.sent += 1;
            let j = bounds::spot_of(p.offset(acked) as u64);
            v.seen_sent[j] = true;
            i += 1;
        } else if are_blank(t, i) {
            i += 8;
        } else if p.status == Place::FREE {
            v.odd = bounds::or_odd(v.odd, p);
            i += 1;
        } else if p.status == Place::WAITING {
            v.odd = bounds::or_odd(v.odd, p);
            v.waiting += 1;
            let k = bounds::spot_of(bounds::key_of(p, false, acked, oldest));
            v.seen_waiting[k] = true;
            i += 1;
        } else {
            v.odd = bounds::or_odd(v.odd, p);
            v.sent += p.is_sent() as usize;
            let j = bounds::spot_of(bounds::key_of(p, true, acked, oldest));
            v.seen_sent[j] = true;
            i += 1;
        }
    }
    v
}

// Whether one of the first n is missing. The loop does not end early, so that a machine may take many flags at a time.
fn has_gap(seen: &[bool; bounds::SPOTS], n: usize) -> bool
    requires { n ≤ 128 }
    ensures { result ≡ has_gap seen.now n }
{
    let mut gap = false;
    for j in 0..n {
        gap |= !seen[j];
    }
    gap
}

// Whether there are n, and each of the numbers 1 to n is among theirs.
fn is_successive(seen: &[bool; bounds::SPOTS], many: usize, n: u32) -> bool
    requires { many ≤ 128 }
    ensures { result ≡ pick (eqb many n) (not (has_gap seen.now n)) false }
{
    many == n as usize && !has_gap(seen, many)
}

// Whether path and places are within their bounds, which both books have alike. Where every place is free nothing is noted.
fn is_bounded(s: Sender, t: &[u32; 1024]) -> bool
    ensures { (ns : List ℕ) → result ≡ is_bounded rail_sizes rail (sending_shown rail s t.now ns) }
{
    if !s.path.is_within() {
        return false;
    }
    let start = blank_before(t);
    let ahead = numbers::keeping::ahead_of(s.acked, s.next_tsn);
    if Rail::PLACES <= start {
        return s.path.flight == 0 && ahead == 1;
    }
    let v = survey_of(t, start, s.acked, s.oldest);
    if v.flight != s.path.flight {
        return false;
    }
    if v.odd || ahead < 1 {
        return false;
    }
    is_successive(&v.seen_sent, v.sent, s.room())
        && is_successive(&v.seen_waiting, v.waiting, v.waiting as u32)
}

// Whether the sending side is within its bounds, whatever the next SSNs: its mode too is one that there is.
pub fn is_within(s: Sender, t: &[u32; 1024]) -> bool
    ensures { (ns : List ℕ) → result ≡ is_sending_within rail_sizes rail (sending_shown rail s t.now ns) }
{
    s.mode <= BookPath::MODE && is_bounded(s, t)
}
