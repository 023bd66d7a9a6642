// A record to start from, and our own INIT.
ghost use Rattle.std.specs.Prelude.{[]};
ghost use Rattle.face.specs.FaceLeft.{call_told_of};
ghost use Rattle.face.specs.FaceOpening.{tables_lent, associated_lent};
ghost use Rattle.face.specs.Promises.{Closes, Associates};

use crate::answer::{Served, tell, unserved};
use flat::Head;
use kept::Kept;
use numbers::Tsn;

// A closed record at one of the host's ports, in one of the two books, whatever stood there.
pub fn close(
    k: Kept,
    held: &mut [u32; 512],
    next_in: &mut [u16; 128],
    places: &mut [u32; 1024],
    next_out: &mut [u16; 128],
    kept_cookie: &mut [u8; 256],
    port: u16,
    mode: u8,
) -> Served
    ensures { Closes port mode (call_told_of result.number result.kept []) (tables_lent held.new next_in.new places.new next_out.new kept_cookie.new) }
{
    let head = Head::closed(port, mode);
    tables::held::clear(held);
    tables::ssns::clear(next_in);
    tables::place::clear(places);
    tables::ssns::clear(next_out);
    flat::fresh::clear_cookie(kept_cookie);
    Served::done(kept::pack(head))
}

// Our own INIT.
pub fn associate(
    k: Kept,
    held: &mut [u32; 512],
    next_in: &mut [u16; 128],
    places: &mut [u32; 1024],
    next_out: &mut [u16; 128],
    kept_cookie: &mut [u8; 256],
    tag: u32,
    tsn: u32,
    port: u16,
    streams: u16,
    out: &mut [u8],
    told: &mut [usize; 2],
) -> Served
    ensures { Associates k tag tsn port streams (associated_lent (tables_lent held.old next_in.old places.old next_out.old kept_cookie.old) out.old) (call_told_of result.number result.kept told.new) (associated_lent (tables_lent held.new next_in.new places.new next_out.new kept_cookie.new) out.new) }
{
    if !kept::is_named(k) {
        return unserved(k, told);
    }
    let head = kept::unpack(k);
    let answer = asks::associate(
        head,
        held,
        next_in,
        places,
        next_out,
        kept_cookie,
        tag,
        Tsn(tsn),
        port,
        streams,
        out,
    );
    tell(head, answer, told)
}
