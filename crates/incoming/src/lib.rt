// The receiving side by value, with its tables, which it lends itself: its promises are those of `delivery`, and how the words stand.
#![tactic(auto)]

ghost use Rattle.std.specs.Prelude.{◌≡◌, ◌^◌, length};
ghost use Rattle.numbers.specs.Numbering.{ring, circles};
ghost use Rattle.numbers.specs.Profile.{rail};
ghost use Rattle.holding.specs.Held.{as_held};
ghost use Rattle.holding.specs.Taking.{written};
ghost use Rattle.delivery.specs.declared.arrival.Arrival.{Arrival};
ghost use Rattle.delivery.specs.declared.receiving.Taken.{Taken};
ghost use Rattle.delivery.specs.declared.acknowledging.Acknowledged.{Acknowledged};
ghost use Rattle.delivery.specs.Arrival.{arrived, arrival_area};
ghost use Rattle.delivery.specs.Receiving.{fresh_receiving, taken_into};
ghost use Rattle.delivery.specs.ReceivingSack.{acknowledged_receiving};
ghost use Rattle.incoming.specs.Incoming.{incoming_shown, incoming_begun, came_to, took_from, incoming_told};

use delivery::{Sack, Verdict};
use holding::{Answer, Chunk};
use numbers::{Keeping, Rail, Tsn};

// Number-keeping, the held chunks, and the next expected SSN of each stream.
#[derive(Clone, Copy)]
pub struct Incoming {
    pub keeping: Keeping,
    pub held: [u32; 512],
    pub next: [u16; Rail::STREAMS],
}

// The verdict on a chunk, and the receiving side after it.
#[derive(Clone, Copy)]
pub struct Came {
    pub verdict: Verdict,
    pub incoming: Incoming,
}

// What a take gives, and the receiving side after it.
#[derive(Clone, Copy)]
pub struct Took {
    pub answer: Answer,
    pub incoming: Incoming,
}

// What a SACK says, and the receiving side after it.
#[derive(Clone, Copy)]
pub struct Told {
    pub sack: Sack,
    pub incoming: Incoming,
}

impl Incoming {
    // Nothing has come yet of a peer whose first number is `initial`.
    pub fn fresh(initial: Tsn) -> Incoming
        ensures { (result ≡ incoming_begun initial) × (incoming_shown result ≡ fresh_receiving (ring (2 ^ 32)) rail initial) }
    {
        Incoming {
            keeping: Keeping::fresh(initial),
            held: [0; 512],
            next: [0; Rail::STREAMS],
        }
    }
}

// A chunk arrives with its payload, in an association of so many agreed streams.
pub fn arrive(mut r: Incoming, area: &mut [u8], c: Chunk, payload: &[u8], streams: u16) -> Came
    ensures { (result ≡ came_to r (as_held c (length payload.now)) streams)
        × (◌≡◌ {A = Arrival} (record { verdict = result.verdict; receiving = incoming_shown result.incoming }) (arrived circles rail (incoming_shown r) (as_held c (length payload.now)) streams))
        × (area.new ≡ arrival_area circles rail (incoming_shown r) (as_held c (length payload.now)) streams area.old payload.now) }
{
    let keeping = r.keeping;
    let came = reception::arrival::arrive(keeping, &mut r.held, &r.next, area, c, payload, streams);
    r.keeping = came.keeping;
    Came {
        verdict: came.verdict,
        incoming: r,
    }
}

// A message is taken: its bytes go to `out`.
pub fn take(mut r: Incoming, area: &[u8], out: &mut [u8]) -> Took
    ensures { (result ≡ took_from r (length out.old))
        × (◌≡◌ {A = Taken} (record { answer = result.answer; receiving = incoming_shown result.incoming }) (taken_into circles rail (incoming_shown r) (length out.old)))
        × (out.new ≡ written circles rail (incoming_shown r).held (incoming_shown r).next r.keeping.point.0 area.now out.old) }
{
    let point = r.keeping.point;
    let answer = taking::giving::take(&mut r.held, &mut r.next, point, area, out);
    Took {
        answer,
        incoming: r,
    }
}

// What a SACK tells; the duplicates are then told.
pub fn sack(mut r: Incoming) -> Told
    ensures { (result ≡ incoming_told r) × (◌≡◌ {A = Acknowledged} (record { sack = result.sack; receiving = incoming_shown result.incoming }) (acknowledged_receiving rail (incoming_shown r))) }
{
    let told = reception::acknowledging::sack(r.keeping, &r.held);
    r.keeping = told.keeping;
    Told {
        sack: told.sack,
        incoming: r,
    }
}
