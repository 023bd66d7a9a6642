// Our own INIT.
ghost use Rattle.std.specs.Prelude.{◌≡◌};
ghost use Rattle.scans.specs.Upto.{smaller};
ghost use Rattle.numbers.specs.Refusal.{answered_number};
ghost use Rattle.calls.specs.Answer.{CallDone};
ghost use Rattle.calls.specs.Opening.{wanting, associate_refusal, associating};
ghost use Rattle.flat.specs.Shown.{shown, bare, association_head};
ghost use Rattle.asks.specs.TableAnswer.{reply_of, answer_in};
ghost use Rattle.asks.specs.TableOpening.{Tables, tables_after};

use crate::answer::{Answered, permitted};
use crate::packet;
use association::Ends;
use calls::answer::OUTPUT;
use flat::Head;
use numbers::{Rail, Refusal, Tsn};
use states::{Call, State};

// No more than there are.
fn wanted(streams: u16) -> u16
    ensures { result ≡ smaller streams 128 }
{
    streams.min(Rail::STREAMS as u16)
}

// A fresh head that waits for an INIT ACK.
fn waiting(head: Head, tag: u32, tsn: Tsn, port: u16, streams: u16) -> Head
    ensures { result ≡ association_head (wanting (bare head) tag tsn port streams) }
{
    let ends = Ends {
        local_port: head.ends.local_port,
        peer_port: port,
        my_tag: tag,
        peer_tag: 0,
        streams_in: Rail::STREAMS as u16,
        streams_out: wanted(streams),
        options: 0,
    };
    Head::started(State::CookieWait(0), ends, tsn, 0, Tsn(1), head.sender.mode)
}

fn check(local: u16, tag: u32, port: u16, streams: u16) -> Result<(), Refusal>
    ensures { answered_number result ≡ associate_refusal local tag port streams }
{
    if association::bounds::lacks_port(local, port) {
        return Err(Refusal::Head);
    }
    if tag == 0 || streams == 0 {
        return Err(Refusal::Opening);
    }
    Ok(())
}

// An association with the peer at a port, with our tag, our first TSN and as many streams as are wanted: an INIT goes out, and every table begins anew.
pub fn associate(
    head: Head,
    held: &mut [u32; 512],
    next_in: &mut [u16; 128],
    places: &mut [u32; 1024],
    next_out: &mut [u16; 128],
    kept: &mut [u8; 256],
    tag: u32,
    tsn: Tsn,
    port: u16,
    streams: u16,
    out: &mut [u8],
) -> Result<Answered, Refusal>
    ensures call_done { CallDone (associating (shown head held.old next_in.old places.old next_out.old kept.old) tag tsn port streams out.old) out.old (answer_in (reply_of head result) held.new next_in.new places.new next_out.new kept.new) out.new }
    ensures fact { ◌≡◌ {A = Tables} (record { held = held.exit.now; next = next_in.new; places = places.new; next_out = next_out.new; kept = kept.new }) (tables_after (reply_of head result).number (record { held = held.entry.now; next = next_in.old; places = places.old; next_out = next_out.old; kept = kept.old })) }
{
    permitted(head, held, places, out.len() < OUTPUT, Call::Associate)?;
    check(head.ends.local_port, tag, port, streams)?;
    let fresh = waiting(head, tag, tsn, port, streams);
    tables::held::clear(held);
    tables::ssns::clear(next_in);
    tables::place::clear(places);
    tables::ssns::clear(next_out);
    flat::fresh::clear_cookie(kept);
    let length = packet::send_init(fresh, out);
    Ok(Answered::told(fresh, length))
}
