// Records to start from: a head, and tables of zeros.
ghost use Rattle.std.specs.Prelude.{◌≡◌, replicate};
ghost use Rattle.association.specs.Fresh.{started, closed_at};
ghost use Rattle.flat.specs.Shown.{association_head, head_over_zeros};

use crate::head::{Association, Head};
use association::Ends;
use numbers::{Keeping, Rail, Tsn};
use sender::Sender;
use states::State;

impl Head {
    // Nothing has come from a peer whose first number is `theirs`, and nothing was sent from `ours` on.
    // The mode is a byte of the record, in which any may stand (refusal 1).
    pub fn started(
        state: State,
        ends: Ends,
        ours: Tsn,
        advertised: u32,
        theirs: Tsn,
        mode: u8,
    ) -> Head
        ensures { result ≡ association_head (started state ends ours advertised theirs mode) }
    {
        Head {
            state,
            ends,
            keeping: Keeping::fresh(theirs),
            sender: Sender::fresh(ours, advertised, mode),
            cookie_len: 0,
        }
    }

    // A closed record at one of the host's ports, in one of the two books.
    pub fn closed(port: u16, mode: u8) -> Head
        ensures { result ≡ association_head (closed_at port mode) }
    {
        let ends = Ends {
            local_port: port,
            peer_port: 0,
            my_tag: 0,
            peer_tag: 0,
            streams_in: 0,
            streams_out: 0,
            options: 0,
        };
        Head::started(State::Closed, ends, Tsn(1), 0, Tsn(1), mode)
    }
}

// No cookie is kept.
pub fn clear_cookie(t: &mut [u8; 256])
    ensures { t.new ≡ replicate 256 0 }
{
    *t = [0; 256];
}

impl Association {
    pub fn closed(port: u16, mode: u8) -> Association
        ensures { result ≡ head_over_zeros (association_head (closed_at port mode)) }
    {
        Association {
            head: Head::closed(port, mode),
            held: [0; 512],
            next_in: [0; Rail::STREAMS],
            places: [0; 1024],
            next_out: [0; Rail::STREAMS],
            cookie: [0; 256],
        }
    }
}
