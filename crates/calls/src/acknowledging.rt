// A SACK goes out.
ghost use Rattle.std.specs.Prelude.{◌≡◌, length};
ghost use Rattle.calls.specs.Acknowledging.{no_sack};

use association::Association;
use chunks::sack::Sack;
use numbers::{Blocks, Rail, Tsn};

// The number, 0 if none; the bytes of the packet; what it says; the record.
// Kept as it is, with a number: the definitions of specs/ answer it, and no code makes one.
#[derive(Clone, Copy)]
pub struct Acknowledged {
    pub number: u8,
    pub length: usize,
    pub sack: Sack,
    pub association: Association,
}

pub fn no_sack() -> Sack
    ensures { result ≡ no_sack }
{
    let blocks = Blocks {
        count: 0,
        starts: [0u16; Rail::BLOCKS],
        ends: [0u16; Rail::BLOCKS],
    };
    Sack {
        point: Tsn(0),
        window: 0,
        blocks,
        dups: [Tsn(0); Rail::LISTED],
        listed: 0,
    }
}
