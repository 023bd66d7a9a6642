// A packet of DATA chunks goes out.
ghost use Rattle.std.specs.Prelude.{◌≡◌, List, ℕ, ◌≤◌, ltb, length};
ghost use Rattle.scans.specs.Scan.{either};
ghost use Rattle.numbers.specs.Profile.{rail};
ghost use Rattle.sending.specs.ChoosePartsLaws.{loaded_by};
ghost use Rattle.sender.specs.declared.Sender.{Sender};
ghost use Rattle.sender.specs.Seen.{sending_shown};
ghost use Rattle.calls.specs.Transmit.{data_sent, Bundle, bundled, bundle_length, bundle_out, transmit_bar};
ghost use Rattle.calls.specs.TransmitLaws.{ChunkAdded};
ghost use Rattle.flat.specs.Shown.{shown};
ghost use Rattle.asks.specs.TableTransmit.{packet_reply_of, Dispatch, dispatched};

use crate::{answer, packet};
use calls::answer::{AREA, OUTPUT};
use chunks::data::Data;
use flat::Head;
use numbers::{Rail, Refusal, Tsn};
use places::{Chunk, Place};
use sending::choosing::Load;
use states::Call;

// The bytes of the packet, 0 if nothing goes; whether one of its chunks is sent again, and its first and last TSN, by which
// the host knows whether to measure a round trip (RFC 9260 section 6.3.1 C5); the head.
#[derive(Clone, Copy)]
pub struct Transmitted {
    pub length: usize,
    pub resent: bool,
    pub first: Tsn,
    pub last: Tsn,
    pub head: Head,
}

fn is_short(area: usize, out: usize) -> bool
    ensures { result ≡ either (ltb area 65536) (ltb out 1472) }
{
    area < AREA || out < OUTPUT
}

// Not a `From`: neither type is of this crate.
fn data_of(c: Chunk) -> Data
    ensures { result ≡ data_sent c }
{
    Data {
        tsn: c.tsn,
        stream: c.stream,
        ssn: c.ssn,
        ppid: c.ppid,
        begin: c.begin,
        end: c.end,
        unordered: c.unordered,
    }
}

// The chunk of place i behind those that end at `at`.
fn add(p: Place, i: u16, area: &[u8], at: usize, out: &mut [u8]) -> usize
    requires { (at ≤ length out.old) × (at ≤ 2000000) }
    ensures { ChunkAdded area.now p i at out.old result out.new }
{
    let payload = octets::part(
        area,
        Rail::PAYLOAD * usize::from(i),
        usize::from(p.chunk.len),
    );
    at + chunks::data::write_data(&mut out[at..], data_of(p.chunk), payload)
}

// The chunks of the places chosen, one behind the other; the answer is where they end.
fn bundle(load: Load, places: &[u32; 1024], area: &[u8], out: &mut [u8]) -> usize
    requires { 12 ≤ length out.old }
    ensures { (s : Sender) (ms : List ℕ) → ◌≡◌ {A = Bundle} (record { at = result; out = out.new }) (bundled area.now (loaded_by (sending_shown rail s places.now ms) load) out.old) }
{
    let mut at: usize = 12;
    for (k, &i) in load.places.iter().enumerate() {
        if k < load.count {
            let p = tables::place::place_at(places, usize::from(i));
            at = add(p, i, area, at, out);
        }
    }
    at
}

// The packet of the chunks that end at `at`; none, where there are none.
fn close(h: packets::Header, at: usize, out: &mut [u8]) -> usize
    ensures { (result ≡ bundle_length (record { at = at; out = out.old })) × (out.new ≡ bundle_out h (record { at = at; out = out.old })) }
{
    if 12 < at {
        return packets::seal(out, at, h);
    }
    0
}

// What flight and window let go, in one packet of at most 548 bytes.
pub fn transmit(
    head: Head,
    held: &[u32; 512],
    places: &mut [u32; 1024],
    next_out: &mut [u16; 128],
    area: &[u8],
    out: &mut [u8],
) -> Result<Transmitted, Refusal>
    ensures { (ns cs : List ℕ) → ◌≡◌ {A = Dispatch} (record { answer = packet_reply_of head result; places = places.new; next = next_out.new; out = out.new }) (dispatched (transmit_bar (shown head held.now ns places.old next_out.old cs) area.now out.old) head places.old next_out.old area.now out.old) }
{
    let short = is_short(area.len(), out.len());
    answer::permitted(head, held, places, short, Call::Transmit)?;
    let filled = choice::choose(head.sender, places, next_out);
    let load = filled.load;
    let h = packet::to_peer(head.ends);
    let at = bundle(load, places, area, out);
    let length = close(h, at, out);
    Ok(Transmitted {
        length,
        resent: load.resent,
        first: load.first,
        last: load.last,
        head: answer::with_sender(head, filled.head),
    })
}
