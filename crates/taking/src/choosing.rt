// Which message a take gives. A place is read only where it is used, and of a run only where it has the number sought.
ghost use Rattle.std.specs.Prelude.{◌≡◌, ◌^◌, ◌<◌, ◌≤◌, get_or, length, false, ltb};
ghost use Rattle.numbers.specs.Numbering.{ring, circles};
ghost use Rattle.numbers.specs.Profile.{rail};
ghost use Rattle.scans.specs.Scan.{count, find_from, pick};
ghost use Rattle.holding.specs.Held.{no_held, is_held_free};
ghost use Rattle.holding.specs.Message.{continues, follow, is_expected, opens, chosen, is_one};
ghost use Rattle.holding.specs.MessageLaws.{best_of_choice, is_better, tried_run};
ghost use Rattle.tables.specs.HeldWords.{held_of};
ghost use Rattle.tables.specs.Ssns.{ssns_of};
ghost use Rattle.taking.specs.TakeWords.{free_for, next_used};
ghost use Rattle.taking.specs.TakeWordsLaws.{Noted};

use holding::message::Best;
use holding::{Held, message};
use numbers::{Rail, Tsn};
use tables::{held, ssns};

// Whether eight places from i on are there, and are free. Who looks at every place asks this first: most are free, and eight words are read.
fn are_free(words: &[u32; held::WORDS], i: usize) -> bool
    ensures { result ≡ pick (ltb 120 i) false (free_for (held_of rail words.now) i 8) }
{
    if 120 < i {
        return false;
    }
    for place in i..i + 8 {
        if held::is_used(words, place) {
            return false;
        }
    }
    true
}

// The first place from `from` on that is used. A `while`: eight free places are passed over at once.
pub fn next_used(words: &[u32; held::WORDS], from: usize) -> Option<usize>
    ensures { result ≡ next_used (held_of rail words.now) from }
{
    let mut i = from;
    while i < Rail::PLACES {
        if held::is_used(words, i) {
            return Some(i);
        }
        i += if are_free(words, i) { 8 } else { 1 };
    }
    None
}

// How many places are free.
pub fn free_places(words: &[u32; held::WORDS]) -> usize
    ensures { (result ≡ count is_held_free (held_of rail words.now)) × (result ≤ 128) }
{
    let mut free = 0;
    for place in 0..Rail::PLACES {
        free += usize::from(!held::is_used(words, place));
    }
    free
}

// Whether the chunk in the place goes on the run of `first` at the number `t`.
#[tactic(auto, unfolding(holding::specs::Message::continues))]
fn goes_on_at(words: &[u32; held::WORDS], place: usize, first: Held, t: Tsn) -> bool
    ensures { result ≡ continues first t.0 (get_or (held_of rail words.now) place no_held) }
{
    held::is_of(words, place, t) && message::goes_on(first, t, held::held_at(words, place))
}

// The first place whose chunk goes on the run of `first` at the number `t`.
fn place_on(words: &[u32; held::WORDS], first: Held, t: Tsn) -> Option<usize>
    ensures { result ≡ find_from (continues first t.0) 0 (held_of rail words.now) }
{
    for place in 0..Rail::PLACES {
        if goes_on_at(words, place, first, t) {
            return Some(place);
        }
    }
    None
}

// The places of the run of `first`, which is at the place, go to the lent list, and their number is told, if the run is a whole message.
pub(crate) fn gather(
    words: &[u32; held::WORDS],
    place: usize,
    first: Held,
    at: &mut [u8; Rail::PLACES],
) -> Option<usize>
    requires { (place < 128) × (length at.old ≡ 128) }
    ensures { Noted at.new result (follow (ring (2 ^ 32)) (held_of rail words.now) first 128 place first) }
{
    let mut here = place;
    let mut chunk = first;
    for n in 0..Rail::PLACES {
        at[n] = here as u8;
        if chunk.end {
            return Some(n + 1);
        }
        let t = chunk.tsn.after(1);
        let Some(next) = place_on(words, first, t) else {
            return None;
        };
        here = next;
        chunk = held::held_at(words, next);
    }
    None
}

// Whether the chunk's message is unordered, or the next expected of its stream.
fn is_expected(next: &[u16; Rail::STREAMS], h: Held) -> bool
    ensures { result ≡ is_expected (ring (2 ^ 16)) rail (ssns_of rail next.now) h }
{
    let stream = usize::from(h.stream.0);
    h.unordered || stream < Rail::STREAMS && h.ssn.0 == ssns::ssn_at(next, stream).0
}

// Whether the message of the chunk in the place is unordered, or the next expected of its stream: of most places that are used this is all that is read.
fn is_next_at(words: &[u32; held::WORDS], next: &[u16; Rail::STREAMS], place: usize) -> bool
    ensures { result ≡ is_expected (ring (2 ^ 16)) rail (ssns_of rail next.now) (get_or (held_of rail words.now) place no_held) }
{
    is_expected(next, held::held_at(words, place))
}

// Whether a message that can be taken may begin with the chunk.
#[tactic(auto, unfolding(holding::specs::Message::opens))]
fn is_open(next: &[u16; Rail::STREAMS], h: Held) -> bool
    ensures { result ≡ opens (ring (2 ^ 16)) rail (ssns_of rail next.now) h }
{
    is_expected(next, h) && message::is_left_end(h)
}

// Whether a message that can be taken may begin with the chunk, and would be better than the best so far.
#[tactic(auto, unfolding(holding::specs::MessageLaws::is_better))]
fn is_better(next: &[u16; Rail::STREAMS], point: Tsn, best: Option<Best>, h: Held) -> bool
    ensures { result ≡ is_better circles rail (ssns_of rail next.now) point.0 best h }
{
    if !is_open(next, h) {
        return false;
    }
    match best {
        Some(best) => point.key(h.tsn) < best.key,
        None => true,
    }
}

// The best so far, or the message that begins at the place, if that is better and is whole.
fn better_at(
    words: &[u32; held::WORDS],
    next: &[u16; Rail::STREAMS],
    point: Tsn,
    best: Option<Best>,
    place: usize,
    at: &mut [u8; Rail::PLACES],
) -> Option<Best>
    requires { (place < 128) × (length at.old ≡ 128) }
    ensures { (result ≡ pick (is_better circles rail (ssns_of rail next.now) point.0 best (get_or (held_of rail words.now) place no_held)) (tried_run (ring (2 ^ 32)) rail (held_of rail words.now) point.0 best place (get_or (held_of rail words.now) place no_held)) best) × (length at.new ≡ 128) }
{
    if !is_next_at(words, next, place) {
        return best;
    }
    let h = held::held_at(words, place);
    if !is_better(next, point, best, h) {
        return best;
    }
    match gather(words, place, h, at) {
        Some(_) => Some(Best {
            place,
            key: point.key(h.tsn),
        }),
        None => best,
    }
}

// The message that a take gives, if there is one. The list is for its places, and is left with any.
pub(crate) fn choose_by(
    words: &[u32; held::WORDS],
    next: &[u16; Rail::STREAMS],
    point: Tsn,
    at: &mut [u8; Rail::PLACES],
) -> Option<Best>
    requires { length at.old ≡ 128 }
    ensures { (result ≡ best_of_choice (chosen circles rail (held_of rail words.now) (ssns_of rail next.now) point.0)) × (length at.new ≡ 128) }
{
    let mut best = None;
    let mut from = 0;
    while let Some(place) = next_used(words, from) {
        best = better_at(words, next, point, best, place, at);
        from = place + 1;
    }
    best
}

// The message that a take gives, if there is one.
pub fn choose(words: &[u32; held::WORDS], next: &[u16; Rail::STREAMS], point: Tsn) -> Option<Best>
    ensures { result ≡ best_of_choice (chosen circles rail (held_of rail words.now) (ssns_of rail next.now) point.0) }
{
    let mut at = [0u8; Rail::PLACES];
    choose_by(words, next, point, &mut at)
}

// Whether a message can be taken.
pub fn can_take(words: &[u32; held::WORDS], next: &[u16; Rail::STREAMS], point: Tsn) -> bool
    ensures { result ≡ is_one (chosen circles rail (held_of rail words.now) (ssns_of rail next.now) point.0) }
{
    choose(words, next, point).is_some()
}
