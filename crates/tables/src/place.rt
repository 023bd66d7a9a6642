// The places of the sending side as words, eight for each.
ghost use Rattle.std.specs.Prelude.{◌≡◌, ◌≤◌, ◌%◌, replicate};
ghost use mir.Val.{bool_byte as bit};
ghost use Rattle.numbers.specs.Profile.{rail};
ghost use Rattle.tables.specs.PlaceWords.{place_decoded, shape_of, state_word, place_at, place_put, state_put};

use numbers::{Rail, Ssn, StreamId, Tsn};
use places::{Chunk, Place};

// The words of all places.
pub const WORDS: usize = Rail::PLACE_WORDS;

// A place from its words.
fn decode(tsn: u32, order: u32, number: u32, ppid: u32, shape: u32, state: u32) -> Place
    ensures { result ≡ place_decoded tsn order number ppid shape state }
{
    let chunk = Chunk {
        tsn: Tsn(tsn),
        order,
        stream: StreamId((shape / 65536) as u16),
        ssn: Ssn((number % 65536) as u16),
        ppid,
        len: (shape / 16 % 4096) as u16,
        begin: shape % 2 == 1,
        end: shape / 2 % 2 == 1,
        unordered: shape / 4 % 2 == 1,
    };
    Place {
        status: (state % 256) as u8,
        misses: (state / 256 % 256) as u8,
        chunk,
    }
}

// The place i; past the last one that is free.
pub fn place_at(t: &[u32; WORDS], i: usize) -> Place
    ensures { result ≡ place_at rail t.now i }
{
    if i < Rail::PLACES {
        let at = 8 * i;
        decode(t[at], t[at + 1], t[at + 2], t[at + 3], t[at + 4], t[at + 5])
    } else {
        decode(0, 0, 0, 0, 0, 0)
    }
}

// The status of the place i: one word is read.
pub fn status_at(t: &[u32; WORDS], i: usize) -> u8
    ensures { result ≡ (place_at rail t.now i).status }
{
    if i < Rail::PLACES {
        (t[8 * i + 5] % 256) as u8
    } else {
        Place::FREE
    }
}

// A chunk's stream, length and flags as a word.
fn shape_of(c: Chunk) -> u32
    ensures { result ≡ shape_of c }
{
    let flags = c.begin as u32 + c.end as u32 * 2 + c.unordered as u32 * 4;
    u32::from(c.stream.0) * 65536 + u32::from(c.len) % 4096 * 16 + flags
}

// A place's misses and status as a word.
fn state_of(p: Place) -> u32
    ensures { result ≡ state_word p }
{
    u32::from(p.misses) * 256 + u32::from(p.status)
}

// The place i. Its last two words stay.
pub fn put_place(t: &mut [u32; WORDS], i: usize, p: Place)
    ensures { t.new ≡ place_put rail t.old i p }
{
    if i < Rail::PLACES {
        let at = 8 * i;
        let c = p.chunk;
        t[at] = c.tsn.0;
        t[at + 1] = c.order;
        t[at + 2] = u32::from(c.ssn.0);
        t[at + 3] = c.ppid;
        t[at + 4] = shape_of(c);
        t[at + 5] = state_of(p);
    }
}

// Misses and status of the place i: one word is written, and its chunk stays.
pub fn put_state(t: &mut [u32; WORDS], i: usize, p: Place)
    ensures { t.new ≡ state_put rail t.old i p }
{
    if i < Rail::PLACES {
        t[8 * i + 5] = state_of(p);
    }
}

// Every place is free, and nothing is left in one.
pub fn clear(t: &mut [u32; WORDS])
    ensures { t.new ≡ replicate 1024 0 }
{
    *t = [0; WORDS];
}
