// The chunks that close an association: ABORT, ERROR, SHUTDOWN, SHUTDOWN ACK, SHUTDOWN COMPLETE.
ghost use Rattle.std.specs.Prelude.{◌≡◌};
ghost use Rattle.octets.specs.Writing.{wrote_bytes};
ghost use Rattle.acks.specs.Acks.{acked_of};
ghost use Rattle.states.specs.declared.state.State.TheVariants.{ShutdownAckSent};
ghost use Rattle.steps.specs.Closing.{become_closed, read_error, reflect_complete, send_complete, become_complete};
ghost use Rattle.flat.specs.Shown.{bare};
ghost use Rattle.rows.specs.Stepped.{stepped_with, stepped_in};
ghost use Rattle.rows.specs.TableRows.{heard_point, places_shut, read_shutdown_by, answer_shutdown_by};

use crate::carrying::acknowledge_shutdown;
use crate::stepped::Stepped;
use flat::Head;
use numbers::Refusal;
use sender::Sender;
use states::State;
use steps::carrying::sack_call;
use steps::{Event, Owed, Reason};

// An ABORT: closed at once, and the rest of the packet is unread.
pub fn become_closed(head: Head) -> Stepped
    ensures { result ≡ stepped_with 0 (become_closed (bare head)) }
{
    Stepped::accepted(head.moved(State::Closed), Event::Down(Reason::Aborted), 0).ending()
}

// An ERROR in COOKIE-ECHOED: a stale cookie ends the waiting.
#[tactic(auto, unfolding(steps::specs::Closing::read_error))]
pub fn read_error(head: Head, s: &[u8]) -> Stepped
    ensures { result ≡ stepped_with 0 (read_error (bare head) s.now) }
{
    if parameters::stale::is_stale(s) {
        return Stepped::accepted(
            head.moved(State::Closed),
            Event::Down(Reason::StaleCookie),
            0,
        );
    }
    Stepped::accepted(head, Event::NoEvent, 0)
}

#[tactic(auto, unfolding(crate::specs::TableRows::heard_point, crate::specs::TableRows::places_shut))]
fn hear_shutdown(sender: Sender, places: &mut [u32; 1024], s: &[u8]) -> Result<Sender, Refusal>
    ensures { (acked_of sender result ≡ heard_point sender places.old s.now) × (places.new ≡ places_shut sender places.old s.now) }
{
    acks::shutdown_point(sender, places, chunks::shutdown::point(s))
}

// A SHUTDOWN in ESTABLISHED, SHUTDOWN-PENDING or SHUTDOWN-RECEIVED.
pub fn read_shutdown(
    mut head: Head,
    places: &mut [u32; 1024],
    s: &[u8],
    space: &mut [u8],
) -> Stepped
    ensures { (result ≡ stepped_in space.old (read_shutdown_by head places.old s.now))
        × (places.new ≡ places_shut head.sender places.old s.now)
        × (space.new ≡ wrote_bytes space.old (read_shutdown_by head places.old s.now).reply) }
{
    match hear_shutdown(head.sender, places, s) {
        Ok(sender) => {
            head.sender = sender;
            if marks::is_empty(places) {
                acknowledge_shutdown(head, State::ShutdownAckSent(0), space)
            } else {
                Stepped::accepted(head.moved(State::ShutdownReceived), Event::NoEvent, 0)
            }
        }
        Err(refusal) => {
            let number = refusal.number();
            Stepped::refused(head, number, sack_call(number))
        }
    }
}

// Answered at once, in the state that it leads to.
fn answer_shutdown(
    mut head: Head,
    state: State,
    places: &mut [u32; 1024],
    s: &[u8],
    space: &mut [u8],
) -> Stepped
    ensures { (result ≡ stepped_in space.old (answer_shutdown_by head places.old state s.now))
        × (places.new ≡ places_shut head.sender places.old s.now)
        × (space.new ≡ wrote_bytes space.old (answer_shutdown_by head places.old state s.now).reply) }
{
    match hear_shutdown(head.sender, places, s) {
        Ok(sender) => {
            head.sender = sender;
            acknowledge_shutdown(head, state, space)
        }
        Err(refusal) => {
            let number = refusal.number();
            Stepped::refused(head, number, sack_call(number))
        }
    }
}

// A SHUTDOWN that crosses ours.
pub fn cross_shutdown(head: Head, places: &mut [u32; 1024], s: &[u8], space: &mut [u8]) -> Stepped
    ensures { (result ≡ stepped_in space.old (answer_shutdown_by head places.old (ShutdownAckSent 0) s.now))
        × (places.new ≡ places_shut head.sender places.old s.now)
        × (space.new ≡ wrote_bytes space.old (answer_shutdown_by head places.old (ShutdownAckSent 0) s.now).reply) }
{
    answer_shutdown(head, State::ShutdownAckSent(0), places, s, space)
}

// A SHUTDOWN that comes again in SHUTDOWN-ACK-SENT: answered again, with the tries as they are.
pub fn repeat_shutdown_ack(
    head: Head,
    places: &mut [u32; 1024],
    s: &[u8],
    space: &mut [u8],
) -> Stepped
    ensures { (result ≡ stepped_in space.old (answer_shutdown_by head places.old head.state s.now))
        × (places.new ≡ places_shut head.sender places.old s.now)
        × (space.new ≡ wrote_bytes space.old (answer_shutdown_by head places.old head.state s.now).reply) }
{
    answer_shutdown(head, head.state, places, s, space)
}

// A SHUTDOWN ACK before there is an association.
pub fn reflect_complete(head: Head) -> Stepped
    ensures { result ≡ stepped_with 0 (reflect_complete (bare head)) }
{
    Stepped::owing(head, Event::NoEvent, Owed::Reflected)
}

// A SHUTDOWN ACK to our SHUTDOWN or SHUTDOWN ACK.
pub fn send_complete(head: Head) -> Stepped
    ensures { result ≡ stepped_with 0 (send_complete (bare head)) }
{
    Stepped::owing(
        head.moved(State::Closed),
        Event::Down(Reason::ShutDown),
        Owed::Complete,
    )
}

// A SHUTDOWN COMPLETE to our SHUTDOWN ACK.
pub fn become_complete(head: Head) -> Stepped
    ensures { result ≡ stepped_with 0 (become_complete (bare head)) }
{
    Stepped::accepted(head.moved(State::Closed), Event::Down(Reason::ShutDown), 0)
}
