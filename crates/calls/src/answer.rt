// What a call answers, and what it must be lent.
use association::Association;
use numbers::Rail;

// A number of document 01's table, 0 if none; the bytes of the packet that was written; whether an expiry closed the association; the record.
// Kept as it is, with a number: the definitions of specs/ answer it, and no code makes one.
#[derive(Clone, Copy)]
pub struct Answer {
    pub number: u8,
    pub length: usize,
    pub over: bool,
    pub association: Association,
}

// What a lent output, and a lent area, must have.
pub const OUTPUT: usize = Rail::LONGEST_PACKET;

pub const AREA: usize = Rail::AREA;
