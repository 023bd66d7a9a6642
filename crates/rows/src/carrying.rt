// The chunks of an open association: DATA, SACK, HEARTBEAT and HEARTBEAT ACK.
// A row is lent the tables that it needs, one by one: with all six it would ask more of its caller.
ghost use Rattle.std.specs.Prelude.{◌≡◌, []};
ghost use Rattle.numbers.specs.Profile.{rail};
ghost use Rattle.numbers.specs.Refusal.{answered_number};
ghost use Rattle.octets.specs.Writing.{wrote_bytes};
ghost use Rattle.reception.specs.Reception.{receiving_shown};
ghost use Rattle.acks.specs.Acks.{acked_of};
ghost use Rattle.steps.specs.Verdict.{quiet};
ghost use Rattle.steps.specs.Carrying.{data_read, shutdown_owed, shutdown_acked, area_in, told_sack, echo_heartbeat, clear_tries};
ghost use Rattle.flat.specs.Shown.{bare};
ghost use Rattle.rows.specs.Stepped.{stepped_with, stepped_in};
ghost use Rattle.rows.specs.TableRows.{heard_data, held_heard, arrival_with, held_by, area_by, read_data_by, read_late_data_by, sack_heard, places_sacked, read_sack_by, read_sack_pending_by, read_sack_received_by};

use crate::stepped::Stepped;
use flat::Head;
use numbers::refusal::number_of;
use numbers::{Keeping, Refusal};
use reception::arrival::Arrived;
use sender::Sender;
use states::State;
use steps::{Event, Owed, carrying};

// The receiver's answer to a DATA chunk.
pub fn hear_data(
    keeping: Keeping,
    streams: u16,
    held: &mut [u32; 512],
    next_in: &[u16; 128],
    area: &mut [u8],
    s: &[u8],
) -> Arrived
    ensures { (result ≡ heard_data (receiving_shown rail keeping held.old next_in.now) streams s.now)
        × (held.new ≡ held_heard (receiving_shown rail keeping held.old next_in.now) streams held.old s.now)
        × (area.new ≡ area_in (receiving_shown rail keeping held.old next_in.now) streams area.old s.now) }
{
    let c = carrying::chunk_of(s);
    let p = chunks::data::payload(s);
    let payload = &s[p.at..p.at + p.len];
    reception::arrival::arrive(keeping, held, next_in, area, c, payload, streams)
}

#[tactic(auto, unfolding(steps::specs::Carrying::data_read))]
fn data_read(mut head: Head, o: Arrived, s: &[u8]) -> Stepped
    ensures { result ≡ stepped_with 0 (data_read (bare head) s.now (arrival_with o [] [])) }
{
    head.keeping = o.keeping;
    Stepped::quiet(head, carrying::tell_data(o.verdict, s))
}

// A DATA chunk in ESTABLISHED or SHUTDOWN-PENDING.
#[tactic(auto, unfolding(crate::specs::TableRows::read_data_by))]
pub fn read_data(
    head: Head,
    held: &mut [u32; 512],
    next_in: &[u16; 128],
    area: &mut [u8],
    s: &[u8],
) -> Stepped
    ensures { (result ≡ stepped_with 0 (read_data_by head held.old next_in.now s.now))
        × (held.new ≡ held_by head held.old next_in.now s.now)
        × (area.new ≡ area_by head held.old next_in.now area.old s.now) }
{
    let o = hear_data(head.keeping, head.ends.streams_in, held, next_in, area, s);
    data_read(head, o, s)
}

// SHUTDOWN goes out behind all else, and its tries begin.
fn owe_shutdown(head: Head) -> Stepped
    ensures { result ≡ stepped_with 0 (shutdown_owed (bare head)) }
{
    Stepped::owing(
        head.moved(State::ShutdownSent(0)),
        Event::NoEvent,
        Owed::Shutdown,
    )
}

// SHUTDOWN ACK goes out in a state of its own.
pub(crate) fn acknowledge_shutdown(head: Head, state: State, space: &mut [u8]) -> Stepped
    ensures { (result ≡ stepped_in space.old (shutdown_acked (bare head) state)) × (space.new ≡ wrote_bytes space.old (shutdown_acked (bare head) state).reply) }
{
    let n = chunks::shutdown::write_shutdown_ack(space);
    Stepped::accepted(head.moved(state), Event::NoEvent, n)
}

// A DATA chunk in SHUTDOWN-SENT: one that is held is answered by a SHUTDOWN, and the tries begin anew.
#[tactic(auto, unfolding(crate::specs::TableRows::read_late_data_by))]
pub fn read_late_data(
    mut head: Head,
    held: &mut [u32; 512],
    next_in: &[u16; 128],
    area: &mut [u8],
    s: &[u8],
) -> Stepped
    ensures { (result ≡ stepped_with 0 (read_late_data_by head held.old next_in.now s.now))
        × (held.new ≡ held_by head held.old next_in.now s.now)
        × (area.new ≡ area_by head held.old next_in.now area.old s.now) }
{
    let o = hear_data(head.keeping, head.ends.streams_in, held, next_in, area, s);
    if carrying::is_kept(o.verdict) {
        head.keeping = o.keeping;
        return owe_shutdown(head);
    }
    data_read(head, o, s)
}

// The sender's answer to a SACK.
#[tactic(auto, unfolding(crate::specs::TableRows::sack_heard, crate::specs::TableRows::places_sacked))]
pub fn hear_sack(sender: Sender, places: &mut [u32; 1024], s: &[u8]) -> Result<Sender, Refusal>
    ensures { (acked_of sender result ≡ sack_heard sender places.old s.now) × (places.new ≡ places_sacked sender places.old s.now) }
{
    let h = chunks::sack::read_sack(s);
    acks::acknowledge(sender, places, h.point, h.window, carrying::blocks_of(s))
}

fn sack_read(head: Head, judged: Result<(), Refusal>) -> Stepped
    ensures { result ≡ stepped_with 0 (quiet (bare head) (told_sack (answered_number judged))) }
{
    Stepped::quiet(head, carrying::tell_sack(number_of(judged)))
}

// A SACK in ESTABLISHED.
#[tactic(auto, unfolding(crate::specs::TableRows::read_sack_by))]
pub fn read_sack(mut head: Head, places: &mut [u32; 1024], s: &[u8]) -> Stepped
    ensures { (result ≡ stepped_with 0 (read_sack_by head places.old s.now)) × (places.new ≡ places_sacked head.sender places.old s.now) }
{
    match hear_sack(head.sender, places, s) {
        Ok(sender) => {
            head.sender = sender;
            sack_read(head, Ok(()))
        }
        Err(refusal) => sack_read(head, Err(refusal)),
    }
}

// A SACK in SHUTDOWN-PENDING: once nothing is left to send, SHUTDOWN goes out.
#[tactic(auto, unfolding(crate::specs::TableRows::read_sack_pending_by))]
pub fn read_sack_pending(mut head: Head, places: &mut [u32; 1024], s: &[u8]) -> Stepped
    ensures { (result ≡ stepped_with 0 (read_sack_pending_by head places.old s.now)) × (places.new ≡ places_sacked head.sender places.old s.now) }
{
    match hear_sack(head.sender, places, s) {
        Ok(sender) => {
            head.sender = sender;
            if marks::is_empty(places) {
                owe_shutdown(head)
            } else {
                sack_read(head, Ok(()))
            }
        }
        Err(refusal) => sack_read(head, Err(refusal)),
    }
}

// A SACK in SHUTDOWN-RECEIVED: once nothing is left to send, SHUTDOWN ACK goes out.
#[tactic(auto, unfolding(crate::specs::TableRows::read_sack_received_by))]
pub fn read_sack_received(
    mut head: Head,
    places: &mut [u32; 1024],
    s: &[u8],
    space: &mut [u8],
) -> Stepped
    ensures { (result ≡ stepped_in space.old (read_sack_received_by head places.old s.now))
        × (places.new ≡ places_sacked head.sender places.old s.now)
        × (space.new ≡ wrote_bytes space.old (read_sack_received_by head places.old s.now).reply) }
{
    match hear_sack(head.sender, places, s) {
        Ok(sender) => {
            head.sender = sender;
            if marks::is_empty(places) {
                acknowledge_shutdown(head, State::ShutdownAckSent(0), space)
            } else {
                sack_read(head, Ok(()))
            }
        }
        Err(refusal) => sack_read(head, Err(refusal)),
    }
}

// A HEARTBEAT is echoed.
pub fn echo_heartbeat(head: Head, s: &[u8], space: &mut [u8]) -> Stepped
    ensures { (result ≡ stepped_in space.old (echo_heartbeat (bare head) s.now)) × (space.new ≡ wrote_bytes space.old (echo_heartbeat (bare head) s.now).reply) }
{
    let p = chunks::heartbeat::info(s);
    let n = chunks::heartbeat::write_heartbeat_ack(space, &s[p.at..p.at + p.len]);
    Stepped::accepted(head, Event::NoEvent, n)
}

// A HEARTBEAT ACK: the peer was heard.
#[tactic(auto, unfolding(steps::specs::Carrying::clear_tries))]
pub fn clear_tries(mut head: Head) -> Stepped
    ensures { result ≡ stepped_with 0 (clear_tries (bare head)) }
{
    head.sender = head.sender.heard();
    Stepped::accepted(head, Event::NoEvent, 0)
}
