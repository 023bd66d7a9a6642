// The chunks of a packet, one by one: each on the record that the one before left, its reply behind those before.
ghost use Rattle.std.specs.Prelude.{◌≡◌};
ghost use Rattle.scans.specs.Scan.{either};
ghost use Rattle.arriving.specs.Walked.{owes, is_due};

use crate::verdict::Verdict;
use association::Association;
use numbers::Rail;
use steps::Owed;

// The most chunks that a packet holds: (1,472 - 12) / 4.
pub const CHUNKS: usize = Rail::CHUNKS;

// What the replies to a packet share, behind their header.
pub const ROOM: usize = Rail::CHUNK_ROOM;

// The record so far, the verdicts of the chunks passed, how many bytes of replies are gathered, whether the rest is unread, whether a SHUTDOWN is
// due, and what the whole reply owes beside it.
// Kept as it is: the definitions of specs/ answer it, and no code makes one.
#[derive(Clone, Copy)]
pub struct Walked {
    pub association: Association,
    pub count: usize,
    pub verdicts: [Verdict; CHUNKS],
    pub used: usize,
    pub unread: bool,
    pub due: bool,
    pub complete: Owed,
}

// The first SHUTDOWN COMPLETE or tag that is owed stands.
pub fn owe(earlier: Owed, now: Owed) -> Owed
    ensures { result ≡ owes earlier now }
{
    match earlier {
        Owed::Shutdown | Owed::Nothing => now,
        _ => earlier,
    }
}

fn is_due(o: Owed) -> bool
    ensures { result ≡ is_due o }
{
    matches!(o, Owed::Shutdown)
}

pub fn is_due_after(before: bool, o: Owed) -> bool
    ensures { result ≡ either before (is_due o) }
{
    before || is_due(o)
}
