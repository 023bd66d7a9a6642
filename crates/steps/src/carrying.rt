// The chunks of an open association: DATA, SACK, HEARTBEAT and HEARTBEAT ACK.
ghost use Rattle.std.specs.Prelude.{◌≡◌};
ghost use Rattle.steps.specs.Carrying.{data_arriving, is_kept, call_of, told_data, chunk_blocks, sack_call, told_sack};

use crate::verdict::{Fate, Named, Told};
use chunks::data::Data;
use delivery::Verdict;
use holding::Chunk;
use numbers::{Blocks, StreamId, Tsn};

// Not `From`: both types are other crates', of which neither rests on the other.
#[tactic(auto, unfolding(crate::specs::Carrying::data_arriving))]
pub fn chunk_of(s: &[u8]) -> Chunk
    ensures { result ≡ data_arriving s.now }
{
    let Data {
        tsn,
        stream,
        ssn,
        ppid,
        begin,
        end,
        unordered,
    } = chunks::data::read_data(s);
    Chunk {
        begin,
        end,
        unordered,
        tsn,
        stream,
        ssn,
        ppid,
    }
}

fn call_of(v: Verdict, tsn: Tsn, stream: StreamId) -> Named
    ensures { result ≡ call_of v tsn stream }
{
    match v {
        Verdict::Empty => Named::AbortNoData(tsn),
        Verdict::Wedged | Verdict::Clashing => Named::AbortViolation,
        Verdict::Stray => Named::ErrorStream(stream),
        _ => Named::NoCall,
    }
}

pub fn is_kept(v: Verdict) -> bool
    ensures { result ≡ is_kept v }
{
    matches!(v, Verdict::Kept)
}

// What the host is told of it.
pub fn tell_data(v: Verdict, s: &[u8]) -> Told
    ensures { result ≡ told_data v s.now }
{
    let c = chunk_of(s);
    Told {
        fate: Fate::from(v),
        named: call_of(v, c.tsn, c.stream),
    }
}

// The blocks of a SACK, with the count that it gives: more than 64 are never all valid.
#[tactic(auto, unfolding(crate::specs::Carrying::chunk_blocks))]
pub fn blocks_of(s: &[u8]) -> Blocks
    ensures { result ≡ chunk_blocks s.now }
{
    Blocks {
        count: usize::from(chunks::sack::read_sack(s).blocks),
        ..chunks::sack::read_blocks(s)
    }
}

// The call that a refused acknowledgement names. A number, and no `Refusal`: any that is given has an answer.
pub fn sack_call(number: u8) -> Named
    ensures { result ≡ sack_call number }
{
    match number {
        16 => Named::AbortViolation,
        _ => Named::NoCall,
    }
}

// What the host is told of an acknowledgement with this number.
pub fn tell_sack(number: u8) -> Told
    ensures { result ≡ told_sack number }
{
    Told {
        fate: match number {
            0 => Fate::Accepted,
            _ => Fate::Refused(number),
        },
        named: sack_call(number),
    }
}
