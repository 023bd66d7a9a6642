// What the host is told of an event, whichever it was.
use arriving::Verdict;
use arriving::walk::CHUNKS;
use association::Association;
use chunks::sack::Sack;
use holding::taking::Message;
use numbers::Tsn;

// Of a packet of DATA: whether one of its chunks is sent again, and its first and last TSN.
#[derive(Clone, Copy)]
pub struct Went {
    pub resent: bool,
    pub first: Tsn,
    pub last: Tsn,
}

// Of a packet that arrived: the verdicts of its chunks.
#[derive(Clone, Copy)]
pub struct Seen {
    pub count: usize,
    pub verdicts: [Verdict; CHUNKS],
}

// The number, 0 if none; the bytes of the packet that was written, of a message handed in its chunks, of a take the bytes of its message, or those
// needed; whether an expiry closed the association; then what one event alone tells.
// Kept as it is, with a number: the definitions of specs/ answer it, and no code makes one.
#[derive(Clone, Copy)]
pub struct Told {
    pub number: u8,
    pub length: usize,
    pub over: bool,
    pub went: Went,
    pub sack: Sack,
    pub message: Message,
    pub seen: Seen,
}

#[derive(Clone, Copy)]
pub struct Ran {
    pub told: Told,
    pub association: Association,
}
