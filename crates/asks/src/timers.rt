// Timers expire, and a round trip is measured.
ghost use Rattle.std.specs.Prelude.{◌≡◌, false, List, ℕ, ◌≤◌, length};
ghost use Rattle.states.specs.declared.call.Call.TheVariants.{FirstTimer, SecondTimer, ThirdTimer};
ghost use Rattle.calls.specs.Answer.{barred, CallDone, QuietlyDone};
ghost use Rattle.calls.specs.Timers.{repeating, association_backed_off, tried_to, expiring, sampling};
ghost use Rattle.flat.specs.Shown.{shown, bare, association_head};
ghost use Rattle.asks.specs.TableAnswer.{reply_done, reply_of, answer_in};
ghost use Rattle.asks.specs.TableTimers.{Lapse, lapsed};

use crate::answer::{Answered, permitted};
use crate::{answer, packet};
use calls::answer::OUTPUT;
use flat::Head;
use numbers::Refusal;
use states::{Call, State};

fn backed_off(head: Head, state: State) -> Head
    ensures { result ≡ association_head (association_backed_off (bare head) state) }
{
    Head {
        state,
        ends: head.ends,
        keeping: head.keeping,
        sender: head.sender.doubled(),
        cookie_len: head.cookie_len,
    }
}

// What the state waits for is asked again.
fn ask_again(state: State, head: Head, kept: &[u8; 256], out: &mut [u8]) -> Answered
    requires { 12 ≤ length out.old }
    ensures { (held ns places ms : List ℕ) → CallDone (repeating state (shown head held ns places ms kept.now)) out.old (answer_in (reply_done result) held ns places ms kept.now) out.new }
{
    match state {
        State::CookieWait(_) => Answered::told(head, packet::send_init(head, out)),
        State::CookieEchoed(_) => {
            let length = packet::send_cookie_echo(head.ends, kept, head.cookie_len, out);
            Answered::told(head, length)
        }
        State::ShutdownSent(_) => {
            let length = packet::send_shutdown(head.ends, head.keeping.point, out);
            Answered::told(head, length)
        }
        State::ShutdownAckSent(_) => {
            Answered::told(head, packet::send_shutdown_ack(head.ends, out))
        }
        _ => Answered::told(head, 0),
    }
}

fn try_again(head: Head, next: State, kept: &[u8; 256], out: &mut [u8]) -> Answered
    requires { 12 ≤ length out.old }
    ensures { (held ns places ms : List ℕ) → CallDone (tried_to (shown head held ns places ms kept.now) next) out.old (answer_in (reply_done result) held ns places ms kept.now) out.new }
{
    if next.is_closed() {
        return Answered::over(head);
    }
    ask_again(next, backed_off(head, next), kept, out)
}

// T1 and T2 alike.
#[inline(always)]
fn expire(
    head: Head,
    held: &[u32; 512],
    places: &[u32; 1024],
    kept: &[u8; 256],
    call: Call,
    out: &mut [u8],
) -> Result<Answered, Refusal>
    ensures { (ns ms : List ℕ) → CallDone (expiring (shown head held.now ns places.now ms kept.now) call out.old) out.old (answer_in (reply_of head result) held.now ns places.now ms kept.now) out.new }
{
    permitted(head, held, places, out.len() < OUTPUT, call)?;
    let next = head.state.tried_again();
    Ok(try_again(head, next, kept, out))
}

// T1 expires: INIT or COOKIE ECHO again, or closed.
pub fn t1(
    head: Head,
    held: &[u32; 512],
    places: &[u32; 1024],
    kept: &[u8; 256],
    out: &mut [u8],
) -> Result<Answered, Refusal>
    ensures { (ns ms : List ℕ) → CallDone (expiring (shown head held.now ns places.now ms kept.now) FirstTimer out.old) out.old (answer_in (reply_of head result) held.now ns places.now ms kept.now) out.new }
{
    expire(head, held, places, kept, Call::FirstTimer, out)
}

// T2 expires: SHUTDOWN or SHUTDOWN ACK again, or closed.
pub fn t2(
    head: Head,
    held: &[u32; 512],
    places: &[u32; 1024],
    kept: &[u8; 256],
    out: &mut [u8],
) -> Result<Answered, Refusal>
    ensures { (ns ms : List ℕ) → CallDone (expiring (shown head held.now ns places.now ms kept.now) SecondTimer out.old) out.old (answer_in (reply_of head result) held.now ns places.now ms kept.now) out.new }
{
    expire(head, held, places, kept, Call::SecondTimer, out)
}

// T3 expires: what is outstanding is marked, or closed. The host's next transmit sends it again.
pub fn t3(head: Head, held: &[u32; 512], places: &mut [u32; 1024]) -> Result<Answered, Refusal>
    ensures { (ns ms cs : List ℕ) → ◌≡◌ {A = Lapse} (record { answer = reply_of head result; places = places.new }) (lapsed (barred (shown head held.now ns places.old ms cs) false ThirdTimer) head places.old) }
{
    permitted(head, held, places, false, Call::ThirdTimer)?;
    match acks::t3(head.sender, places)? {
        Some(after) => Ok(Answered::told(answer::with_sender(head, after), 0)),
        None => Ok(Answered::over(head)),
    }
}

// A round trip of so many milliseconds was measured. Which ones count is the host's to say (RFC 9260 section 6.3.1 C5).
pub fn rtt(
    head: Head,
    held: &[u32; 512],
    places: &[u32; 1024],
    sample: u32,
) -> Result<Answered, Refusal>
    ensures { (ns ms cs : List ℕ) → QuietlyDone (sampling (shown head held.now ns places.now ms cs) sample) (answer_in (reply_of head result) held.now ns places.now ms cs) }
{
    permitted(head, held, places, false, Call::Sample)?;
    let after = head.sender.sampled(sample);
    Ok(Answered::told(answer::with_sender(head, after), 0))
}
