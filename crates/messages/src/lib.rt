// A message is handed in: cut into chunks, each in the lowest free place of the lent table, its payload in the part of the area that belongs to the place.
#![tactic(auto)]

ghost use Rattle.std.specs.Prelude.{◌≡◌, ◌*◌, ◌<◌, ◌≤◌, length};
ghost use Rattle.scans.specs.Scan.{count};
ghost use Rattle.numbers.specs.Profile.{rail, payload_start};
ghost use Rattle.octets.specs.Bytes.{laid};
ghost use Rattle.places.specs.Places.{has_status};
ghost use Rattle.sending.specs.HandIn.{chunks_of, part_len, part_of, chunk_at, waiting_at, stored_in};
ghost use Rattle.tables.specs.PlaceWords.{places_of};
ghost use Rattle.messages.specs.MessageWords.{laid_words, handing_of, handing, handed_words, handed_area};

use numbers::{Rail, Refusal, Ssn, StreamId, Tsn};
use places::{Chunk, Place};
use sender::Sender;
use sending::cutting;
use sending::cutting::{Message, Room};

// The bytes of chunk k of a message of so many.
fn part_len(len: usize, k: usize) -> u16
    requires { 512 * k < len }
    ensures { result ≡ part_len rail len k }
{
    (len - Rail::PAYLOAD * k).min(Rail::PAYLOAD) as u16
}

// The chunk k of n.
fn chunk_at(m: Message, n: usize, k: usize) -> Chunk
    requires { (512 * k < m.len) × (k < 128) }
    ensures { result ≡ chunk_at rail m n k }
{
    Chunk {
        tsn: Tsn(0),
        order: m.first.wrapping_add(k as u32),
        stream: m.stream,
        ssn: Ssn(0),
        ppid: m.ppid,
        len: part_len(m.len, k),
        begin: k == 0,
        end: k + 1 == n,
        unordered: m.unordered,
    }
}

fn waiting_at(m: Message, n: usize, k: usize) -> Place
    requires { (512 * k < m.len) × (k < 128) }
    ensures { result ≡ waiting_at rail m n k }
{
    Place {
        status: Place::WAITING,
        misses: 0,
        chunk: chunk_at(m, n, k),
    }
}

// The payload of chunk k into the bytes of place i.
fn store(area: &mut [u8], message: &[u8], i: usize, k: usize)
    requires { (i < 128) × (k < 128) }
    ensures { area.new ≡ laid area.old (payload_start rail i) (part_of rail message.now k) }
{
    let part = octets::bytes::part(message, Rail::PAYLOAD * k, Rail::PAYLOAD);
    octets::bytes::put_all(area, Rail::PAYLOAD * i, part);
}

// How many places are free, and how many wait.
fn room_of(t: &[u32; 1024]) -> Room
    ensures { (result.free ≡ count (has_status 0) (places_of rail t.now)) × (result.waiting ≡ count (has_status 1) (places_of rail t.now)) × (result.free ≤ 128) × (result.waiting ≤ 128) }
{
    let mut free: usize = 0;
    let mut waiting: usize = 0;
    for i in 0..Rail::PLACES {
        let status = tables::place::status_at(t, i);
        free += usize::from(status == Place::FREE);
        waiting += usize::from(status == Place::WAITING);
    }
    Room { free, waiting }
}

// The chunks of the message into the places, and its payloads into the area.
fn lay_out(t: &mut [u32; 1024], area: &mut [u8], message: &[u8], m: Message, n: usize)
    requires { (n ≡ chunks_of rail m.len) × (n ≤ 128) }
    ensures t_after { t.new ≡ laid_words rail m n t.old }
    ensures area_after { area.new ≡ stored_in rail n message.now (places_of rail t.old) area.old }
{
    let mut k: usize = 0;
    for i in 0..Rail::PLACES {
        let p = tables::place::place_at(t, i);
        if cutting::takes(p, k, n) {
            store(area, message, i, k);
            tables::place::put_place(t, i, waiting_at(m, n, k));
            k += 1;
        }
    }
}

// A message for a stream, of which so many are agreed: into how many chunks it was cut. The head stays; what is refused leaves the tables too.
pub fn hand_in(
    s: Sender,
    t: &mut [u32; 1024],
    area: &mut [u8],
    message: &[u8],
    stream: StreamId,
    unordered: bool,
    ppid: u32,
    streams: u16,
) -> Result<usize, Refusal>
    ensures value { handing_of result ≡ handing rail s t.old (length message.now) stream streams }
    ensures t_after { t.new ≡ handed_words rail s t.old (length message.now) stream unordered ppid streams }
    ensures area_after { area.new ≡ handed_area rail s t.old area.old message.now stream streams }
{
    let len = message.len();
    if cutting::is_refused(len, stream, streams) {
        return Err(Refusal::Message);
    }
    let n = cutting::chunks(len);
    let r = room_of(t);
    if r.free < n {
        return Err(Refusal::Full);
    }
    let m = Message {
        len,
        first: s.oldest.wrapping_add(r.waiting as u32),
        stream,
        ppid,
        unordered,
    };
    lay_out(t, area, message, m, n);
    Ok(n)
}
