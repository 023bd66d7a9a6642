// Held chunks as words, four for each place.
ghost use Rattle.std.specs.Prelude.{◌≡◌, ◌≤◌, ◌%◌, ◌*◌, get_or, replicate, eqb};
ghost use mir.Val.{bool_byte as bit};
ghost use Rattle.numbers.specs.Profile.{rail};
ghost use Rattle.holding.specs.Held.{no_held, holds};
ghost use Rattle.tables.specs.HeldWords.{held_of, held_decoded, last_word, held_put, held_freed};

use holding::Held;
use numbers::{Rail, Ssn, StreamId, Tsn};

// The words of all places.
pub const WORDS: usize = Rail::HELD_WORDS;

// A place from its words.
fn decode(tsn: u32, number: u32, ppid: u32, last: u32) -> Held
    ensures { result ≡ held_decoded tsn number ppid last }
{
    Held {
        used: last % 2 == 1,
        begin: last / 2 % 2 == 1,
        end: last / 4 % 2 == 1,
        unordered: last / 8 % 2 == 1,
        tsn: Tsn(tsn),
        stream: StreamId((last / 65536) as u16),
        ssn: Ssn((number % 65536) as u16),
        ppid,
        len: (last / 16 % 4096) as u16,
    }
}

// The place i; past the last one that is free. `place` has its like: each names its own words, and a trait for both would be longer than the two.
pub fn held_at(t: &[u32; WORDS], i: usize) -> Held
    ensures { result ≡ get_or (held_of rail t.now) i no_held }
{
    if i < Rail::PLACES {
        let at = 4 * i;
        decode(t[at], t[at + 1], t[at + 2], t[at + 3])
    } else {
        Held::none()
    }
}

// Whether the place i is used: one word is read.
pub fn is_used(t: &[u32; WORDS], i: usize) -> bool
    ensures { result ≡ (get_or (held_of rail t.now) i no_held).used }
{
    i < Rail::PLACES && t[4 * i + 3] % 2 == 1
}

// The number in the place i: one word is read.
fn tsn_at(t: &[u32; WORDS], i: usize) -> Tsn
    ensures { result.0 ≡ (get_or (held_of rail t.now) i no_held).tsn.0 }
{
    if i < Rail::PLACES {
        Tsn(t[4 * i])
    } else {
        Tsn(0)
    }
}

// Whether the chunk of the number is in the place i: two words are read.
pub fn is_of(t: &[u32; WORDS], i: usize, tsn: Tsn) -> bool
    ensures { result ≡ holds tsn.0 (get_or (held_of rail t.now) i no_held) }
{
    is_used(t, i) && tsn_at(t, i).0 == tsn.0
}

// Stream, length and flags of a place as a word.
fn last_of(h: Held) -> u32
    ensures { result ≡ last_word h }
{
    let flags = h.used as u32 + h.begin as u32 * 2 + h.end as u32 * 4 + h.unordered as u32 * 8;
    u32::from(h.stream.0) * 65536 + u32::from(h.len) % 4096 * 16 + flags
}

// The chunk in the place i.
pub fn put_held(t: &mut [u32; WORDS], i: usize, h: Held)
    ensures { t.new ≡ held_put rail t.old i h }
{
    if i < Rail::PLACES {
        let at = 4 * i;
        t[at] = h.tsn.0;
        t[at + 1] = u32::from(h.ssn.0);
        t[at + 2] = h.ppid;
        t[at + 3] = last_of(h);
    }
}

// The place i is free, and nothing is left in it.
pub fn free_held(t: &mut [u32; WORDS], i: usize)
    ensures { t.new ≡ held_freed rail t.old i }
{
    put_held(t, i, Held::none());
}

// Every place is free, and nothing is left in one.
pub fn clear(t: &mut [u32; WORDS])
    ensures { t.new ≡ replicate 512 0 }
{
    *t = [0; WORDS];
}
