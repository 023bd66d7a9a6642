// A packet arrives.
ghost use Rattle.std.specs.Prelude.{◌≡◌, List, ℕ, ◌≤◌, length, take};
ghost use Rattle.numbers.specs.Refusal.{answered_number};
ghost use Rattle.flat.specs.Shown.{bare, shown};
ghost use Rattle.arriving.specs.Arrival.{lent_number, packet_number, answered_length, answered_out};
ghost use Rattle.rows.specs.Lending.{standing, AreSame};
ghost use Rattle.landing.specs.TableWalk.{bare_walked};
ghost use Rattle.landing.specs.Landing.{after_of, after_over, landing_done, landing_of, packet_walked_from, let_in, landed};

use crate::verdict::WORDS;
use crate::walk::Walk;
use crate::{reply, tags, walk};
use arriving::walk::ROOM;
use flat::Head;
use flat::bounds::is_sound;
use numbers::{Rail, Refusal};
use rows::Tables;
use steps::{Beside, Echoed, Lent};

// How many of the chunks have a verdict, the length of the reply, and the head.
#[derive(Clone, Copy)]
pub struct Landed {
    pub count: usize,
    pub length: usize,
    pub head: Head,
}

// What a lent area, and a lent output, must have.
const AREA: usize = Rail::AREA;

const OUTPUT: usize = Rail::LONGEST_PACKET;

// 1 or 18, whatever the next SSNs and the bytes of the cookie.
fn check_lent(
    head: Head,
    held: &[u32; 512],
    places: &[u32; 1024],
    area: usize,
    out: usize,
) -> Result<(), Refusal>
    ensures { (ns ms cs : List ℕ) → answered_number result ≡ lent_number (shown head held.now ns places.now ms cs) area out }
{
    if !is_sound(head, held, places) {
        return Err(Refusal::Record);
    }
    if area < AREA || out < OUTPUT {
        return Err(Refusal::Short);
    }
    Ok(())
}

// 2, 3, 4, 5, 6.
fn check(head: Head, packet: &[u8], echoed: Echoed) -> Result<(), Refusal>
    ensures { answered_number result ≡ packet_number (bare head) packet.now echoed }
{
    packets::check_size(packet)?;
    packets::check_sum(packet)?;
    let h = packets::read_header(packet);
    let s = octets::part(packet, 12, packet.len());
    tags::check_head(head, h, s, echoed)?;
    packets::check_shape(packet)
}

// What is sent, unless an ABORT silences it.
fn answer(w: Walk, packet: &[u8], scratch: &mut [u8], out: &mut [u8]) -> usize
    requires { (w.used ≤ 1460) × (length scratch.old ≡ 1460) }
    ensures { (result ≡ answered_length (bare_walked w) packet.now (take w.used scratch.old) out.old)
        × (out.new ≡ answered_out (bare_walked w) packet.now (take w.used scratch.old) out.old) }
{
    if arriving::tags::has_abort(octets::part(packet, 12, packet.len())) {
        return 0;
    }
    let h = reply::reply_head(w.head, w.complete, packets::read_header(packet));
    let n = reply::close_reply(w, scratch);
    reply::send(h, &scratch[..n], out)
}

fn let_in(
    head: Head,
    tables: &mut Tables,
    verdicts: &mut [u32; WORDS],
    packet: &[u8],
    lent: Lent,
    cookie: &[u8],
    echoed: Echoed,
    out: &mut [u8],
) -> Landed
    ensures same { AreSame tables.old tables.new }
    ensures left { after_over (landing_done result) (standing tables.new) verdicts.new out.new
        ≡ let_in (packet_walked_from packet.now lent cookie.now echoed head (standing tables.old) verdicts.old) packet.now out.old }
{
    let b = Beside {
        first: true,
        source: packets::read_header(packet).source,
        lent,
        echoed,
    };
    let mut scratch = [0u8; ROOM];
    let w = walk::walk_over(head, tables, verdicts, b, cookie, packet, &mut scratch);
    Landed {
        count: w.count,
        length: answer(w, packet, &mut scratch, out),
        head: w.head,
    }
}

// A packet: 1, 18, 2, 3, 4, 5, 6 for the whole, which then leaves the head and all that is lent; else each chunk with its own verdict. The words of the
// verdicts behind the last one stay. The first `length` bytes of `out` are the reply.
pub fn arrive(
    head: Head,
    held: &mut [u32; 512],
    next_in: &mut [u16; 128],
    places: &mut [u32; 1024],
    next_out: &mut [u16; 128],
    kept: &mut [u8; 256],
    area: &mut [u8],
    verdicts: &mut [u32; WORDS],
    packet: &[u8],
    lent: Lent,
    cookie: &[u8],
    echoed: Echoed,
    out: &mut [u8],
) -> Result<Landed, Refusal>
    ensures { after_of (landing_of head result) held.new next_in.new places.new next_out.new kept.new area.new verdicts.new out.new
        ≡ landed packet.now lent cookie.now echoed head held.old next_in.old places.old next_out.old kept.old area.old verdicts.old out.old }
{
    check_lent(head, held, places, area.len(), out.len())?;
    // The host's word on an echo, as it counts for this record.
    let word = echoed.heeded(head.state, head.ends);
    check(head, packet, word)?;
    let mut tables = Tables {
        held,
        next_in,
        places,
        next_out,
        kept,
        area,
    };
    Ok(let_in(head, &mut tables, verdicts, packet, lent, cookie, word, out))
}
