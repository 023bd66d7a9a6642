// The record.
ghost use Rattle.std.specs.Prelude.{◌≡◌};
ghost use Rattle.association.specs.Fresh.{with_state};
ghost use Rattle.flat.specs.Shown.{association_head, bare};

use association::Ends;
use numbers::{Keeping, Rail};
use sender::Sender;
use states::State;

// All of a record that is no table.
#[derive(Clone, Copy)]
pub struct Head {
    pub state: State,
    pub ends: Ends,
    pub keeping: Keeping,
    pub sender: Sender,
    pub cookie_len: u16,
}

// The whole, as document 01 has it: taken and returned. Its places of 128 held chunks have four words each, those of 128 chunks to send eight.
#[derive(Clone, Copy)]
pub struct Association {
    pub head: Head,
    pub held: [u32; 512],
    pub next_in: [u16; Rail::STREAMS],
    pub places: [u32; 1024],
    pub next_out: [u16; Rail::STREAMS],
    pub cookie: [u8; 256],
}

impl Head {
    // The head in another state: all that closing changes.
    pub fn moved(self, state: State) -> Head
        ensures { result ≡ association_head (with_state (bare self) state) }
    {
        Head { state, ..self }
    }
}
