// A packet arrives.
ghost use Rattle.std.specs.Prelude.{◌≡◌};
ghost use Rattle.kept.specs.Word.{echoed_of};
ghost use Rattle.landing.specs.Landing.{landing_of};
ghost use Rattle.face.specs.FaceLeft.{call_told_of};
ghost use Rattle.face.specs.FaceArrival.{lent_as, made_as, landed_told, arrived_lent};
ghost use Rattle.face.specs.Promises.{Arrives};

use crate::answer::{Served, unserved};
use flat::Head;
use kept::Kept;
use landing::Landed;
use numbers::{Refusal, Tsn};
use steps::{Lent, Made};

// Told: how many verdicts there are, and the length of the reply.
fn judged(head: Head, answer: Result<Landed, Refusal>, told: &mut [usize; 2]) -> Served
    ensures { call_told_of result.number result.kept told.new ≡ landed_told (landing_of head answer) }
{
    match answer {
        Ok(landed) => {
            *told = [landed.count, landed.length];
            Served::done(kept::pack(landed.head))
        }
        Err(refusal) => {
            *told = [0; 2];
            Served::refused(kept::pack(head), refusal)
        }
    }
}

// A packet arrives: what is lent and `cookie` serve an INIT, the word and what the cookie was made from, its options `agreed`, a COOKIE ECHO.
pub fn arrive(
    k: Kept,
    held: &mut [u32; 512],
    next_in: &mut [u16; 128],
    places: &mut [u32; 1024],
    next_out: &mut [u16; 128],
    kept_cookie: &mut [u8; 256],
    area: &mut [u8],
    verdicts: &mut [u32; 1460],
    packet: &[u8],
    tag: u32,
    tsn: u32,
    streams: u16,
    options: u8,
    cookie: &[u8],
    word: u8,
    my_tag: u32,
    peer_tag: u32,
    streams_in: u16,
    streams_out: u16,
    my_tsn: u32,
    peer_tsn: u32,
    window: u32,
    my_tie: u32,
    peer_tie: u32,
    agreed: u8,
    out: &mut [u8],
    told: &mut [usize; 2],
) -> Served
    ensures { Arrives k packet.now (lent_as tag tsn streams options) cookie.now (echoed_of word (made_as my_tag peer_tag streams_in streams_out my_tsn peer_tsn window my_tie peer_tie agreed)) (arrived_lent held.old next_in.old places.old next_out.old kept_cookie.old area.old verdicts.old out.old) (call_told_of result.number result.kept told.new) (arrived_lent held.new next_in.new places.new next_out.new kept_cookie.new area.new verdicts.new out.new) }
{
    if !kept::is_named(k) {
        return unserved(k, told);
    }
    let head = kept::unpack(k);
    let lent = Lent {
        tag,
        tsn: Tsn(tsn),
        streams,
        options,
    };
    let made = Made {
        my_tag,
        peer_tag,
        streams_in,
        streams_out,
        my_tsn: Tsn(my_tsn),
        peer_tsn: Tsn(peer_tsn),
        window,
        my_tie,
        peer_tie,
        options: agreed,
    };
    let echoed = kept::word::echoed_of(word, made);
    let answer = landing::arrive(
        head,
        held,
        next_in,
        places,
        next_out,
        kept_cookie,
        area,
        verdicts,
        packet,
        lent,
        cookie,
        echoed,
        out,
    );
    judged(head, answer, told)
}
