// A packet of DATA chunks goes out.
ghost use Rattle.std.specs.Prelude.{length};

use association::Association;
use numbers::Tsn;

// The number, 0 if none; the bytes of the packet, 0 if nothing goes; whether one of its chunks is sent again, and its first and last TSN, by which
// the host knows whether to measure a round trip (RFC 9260 section 6.3.1 C5); the record.
// Kept as it is, with a number: the definitions of specs/ answer it, and no code makes one.
#[derive(Clone, Copy)]
pub struct Transmitted {
    pub number: u8,
    pub length: usize,
    pub resent: bool,
    pub first: Tsn,
    pub last: Tsn,
    pub association: Association,
}
