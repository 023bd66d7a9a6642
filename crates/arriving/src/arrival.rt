// A packet arrives.
ghost use Rattle.std.specs.Prelude.{length};

use crate::verdict::Verdict;
use crate::walk::{CHUNKS, ROOM};
use association::Association;
use numbers::Rail;

// The number of the packet, 0 if it was let in; then the verdicts of its chunks, the length of the reply, and the record.
// Kept as it is, with a number: the definitions of specs/ answer it, and no code makes one.
#[derive(Clone, Copy)]
pub struct Arrived {
    pub number: u8,
    pub count: usize,
    pub verdicts: [Verdict; CHUNKS],
    pub length: usize,
    pub association: Association,
}

// What a lent area, and a lent output, must have.
const AREA: usize = Rail::AREA;

const OUTPUT: usize = Rail::LONGEST_PACKET;
