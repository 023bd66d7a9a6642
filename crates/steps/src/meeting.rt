// An INIT and a COOKIE ECHO where there may be an association already (RFC 9260 sections 5.2.1, 5.2.2 and 5.2.4).
ghost use Rattle.std.specs.Prelude.{◌≡◌};
ghost use Rattle.steps.specs.Meeting.{as_sent, as_new, offer, is_tie, is_tied, is_untied, action_of, starts_anew, started_as};

use crate::lent::{Lent, Made};
use crate::verdict::Event;
use association::Ends;
use numbers::Tsn;
use states::State;

// What table 12 says to do: A, B, C and D, or a case that it does not show.
#[derive(Clone, Copy, PartialEq, Eq)]
pub enum Action {
    Restart,
    Retag,
    Late,
    Again,
    Outside,
}

// As our own INIT had it.
fn as_sent(ends: Ends, next: Tsn) -> Lent
    ensures { result ≡ as_sent ends next }
{
    Lent {
        tag: ends.my_tag,
        tsn: next,
        streams: ends.streams_out,
        options: ends.options,
    }
}

// A new tag and TSN for the association that there is.
fn as_new(ends: Ends, lent: Lent) -> Lent
    ensures { result ≡ as_new ends lent }
{
    Lent {
        streams: ends.streams_out,
        options: ends.options,
        ..lent
    }
}

// What our INIT ACK says of us.
pub fn offer(state: State, ends: Ends, next: Tsn, lent: Lent) -> Lent
    ensures { result ≡ offer state ends next lent }
{
    match state {
        State::Closed => lent,
        State::CookieWait(_) | State::CookieEchoed(_) => as_sent(ends, next),
        _ => as_new(ends, lent),
    }
}

fn is_tie(tag: u32, tie: u32) -> bool
    ensures { result ≡ is_tie tag tie }
{
    tie != 0 && tie == tag
}

fn is_tied(ends: Ends, m: Made) -> bool
    ensures { result ≡ is_tied ends m }
{
    is_tie(ends.my_tag, m.my_tie) && is_tie(ends.peer_tag, m.peer_tie)
}

fn is_untied(m: Made) -> bool
    ensures { result ≡ is_untied m }
{
    m.my_tie == 0 && m.peer_tie == 0
}

// The rows of table 12: whether our tag is the association's, and whether the peer's is, where it is known.
#[tactic(auto, unfolding(crate::specs::Meeting::action_of))]
pub fn action_of(state: State, ends: Ends, m: Made) -> Action
    ensures { result ≡ action_of state ends m }
{
    let is_known = state.knows_peer();
    match (
        m.my_tag == ends.my_tag,
        is_known && m.peer_tag == ends.peer_tag,
    ) {
        (true, true) => Action::Again,
        (true, false) => Action::Retag,
        (false, true) if is_untied(m) => Action::Late,
        (false, false) if is_known && is_tied(ends, m) => Action::Restart,
        _ => Action::Outside,
    }
}

// Whether a good echo starts from a fresh record: B and D only where no association is established yet.
pub fn starts(action: Action, state: State) -> bool
    ensures { result ≡ starts_anew action state }
{
    match action {
        Action::Restart => !matches!(state, State::ShutdownAckSent(_)),
        Action::Retag | Action::Again => matches!(
            state,
            State::Closed | State::CookieWait(_) | State::CookieEchoed(_)
        ),
        Action::Late | Action::Outside => state.is_closed(),
    }
}

// What has then happened.
pub fn started_as(action: Action, state: State) -> Event
    ensures { result ≡ started_as action state }
{
    match action {
        Action::Restart if !state.is_closed() => Event::Restarted,
        _ => Event::Up,
    }
}
