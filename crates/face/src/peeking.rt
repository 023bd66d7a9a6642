// What the host must know of a packet before it arrives.
ghost use Rattle.std.specs.Prelude.{◌≡◌};
ghost use Rattle.calls.specs.Peek.{told_by_number, peeked};
ghost use Rattle.face.specs.FacePeek.{seen_number, seen_words};

use calls::Peeked;
use numbers::Refusal;

// The number, 0 if none, and the words told: kind (1 an INIT, 2 a COOKIE ECHO, else 0), the port that it came from, tag, window, streams out and in, first TSN; where
// the cookie stands, and its length; the options that are offered.
#[derive(Clone, Copy)]
pub struct Seen {
    pub number: u32,
    pub words: [usize; 10],
}

fn words_of(seen: Result<Option<Peeked>, Refusal>) -> [usize; 10]
    ensures { result ≡ seen_words (told_by_number seen) }
{
    match seen {
        Ok(Some(Peeked::Init(v, source, options))) => [
            1,
            usize::from(source),
            v.tag as usize,
            v.window as usize,
            usize::from(v.outs),
            usize::from(v.ins),
            v.tsn.0 as usize,
            0,
            0,
            usize::from(options),
        ],
        Ok(Some(Peeked::Echo(at, len))) => [2, 0, 0, 0, 0, 0, 0, at, len, 0],
        Ok(None) | Err(_) => [0; 10],
    }
}

// Told before a packet arrives, and the packet stays as it is.
pub fn peek(packet: &[u8]) -> Seen
    ensures { (result.number ≡ seen_number (peeked packet.now)) × (result.words ≡ seen_words (peeked packet.now)) }
{
    let seen = calls::peek(packet);
    Seen {
        number: match seen {
            Ok(_) => 0,
            Err(refusal) => u32::from(refusal.number()),
        },
        words: words_of(seen),
    }
}
