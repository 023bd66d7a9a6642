// The host closes.
ghost use Rattle.std.specs.Prelude.{◌≡◌, List, ℕ, ◌≤◌, length};
ghost use Rattle.calls.specs.Answer.{CallDone};
ghost use Rattle.calls.specs.Closing.{shutting, abort_cause, aborted, aborting};
ghost use Rattle.flat.specs.Shown.{shown};
ghost use Rattle.asks.specs.TableAnswer.{reply_done, reply_of, answer_in};

use crate::answer::{Answered, permitted};
use crate::packet;
use calls::Reason;
use calls::answer::OUTPUT;
use chunks::cause::Cause;
use flat::Head;
use numbers::Refusal;
use states::{Call, State};

// No more messages: SHUTDOWN, once all that was handed in is acknowledged.
pub fn shutdown(
    head: Head,
    held: &[u32; 512],
    places: &[u32; 1024],
    out: &mut [u8],
) -> Result<Answered, Refusal>
    ensures { (ns ms cs : List ℕ) → CallDone (shutting (shown head held.now ns places.now ms cs) out.old) out.old (answer_in (reply_of head result) held.now ns places.now ms cs) out.new }
{
    permitted(head, held, places, out.len() < OUTPUT, Call::Shutdown)?;
    if marks::is_empty(places) {
        let length = packet::send_shutdown(head.ends, head.keeping.point, out);
        return Ok(Answered::told(head.moved(State::ShutdownSent(0)), length));
    }
    Ok(Answered::told(head.moved(State::ShutdownPending), 0))
}

// Not a `From`: neither type is of this crate.
fn cause_of(why: Reason) -> Cause
    ensures { result ≡ abort_cause why }
{
    match why {
        Reason::User => Cause::UserAbort,
        Reason::NoData(tsn) => Cause::NoUserData(tsn),
        Reason::Violation => Cause::ProtocolViolation,
    }
}

fn end(head: Head, why: Reason, out: &mut [u8]) -> Answered
    requires { 12 ≤ length out.old }
    ensures { (held ns places ms cs : List ℕ) → CallDone (aborted (shown head held ns places ms cs) why) out.old (answer_in (reply_done result) held ns places ms cs) out.new }
{
    let length = if head.state.knows_peer() {
        packet::send_abort(head.ends, cause_of(why), out)
    } else {
        0
    };
    Answered::told(head.moved(State::Closed), length)
}

// The association is over at once, and the peer is told by an ABORT.
pub fn abort(
    head: Head,
    held: &[u32; 512],
    places: &[u32; 1024],
    why: Reason,
    out: &mut [u8],
) -> Result<Answered, Refusal>
    ensures { (ns ms cs : List ℕ) → CallDone (aborting (shown head held.now ns places.now ms cs) why out.old) out.old (answer_in (reply_of head result) held.now ns places.now ms cs) out.new }
{
    permitted(head, held, places, out.len() < OUTPUT, Call::Abort)?;
    Ok(end(head, why, out))
}
