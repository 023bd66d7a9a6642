// The by-value step: any event, by the call that serves it. The record lends its own tables.
ghost use Rattle.std.specs.Prelude.{ℕ, ◌≡◌, false, List};
ghost use Rattle.states.specs.declared.call.Call.TheVariants.{HandIn, FirstTimer, SecondTimer, ThirdTimer};
ghost use Rattle.calls.specs.Answer.{CallDone, is_short_area, barred};
ghost use Rattle.calls.specs.Opening.{associating};
ghost use Rattle.calls.specs.Messages.{take_bar};
ghost use Rattle.calls.specs.Transmit.{transmit_bar};
ghost use Rattle.calls.specs.Acknowledging.{acknowledged_call, acknowledged_out};
ghost use Rattle.calls.specs.Timers.{expiring, sampling};
ghost use Rattle.calls.specs.Closing.{shutting, aborting};
ghost use Rattle.calls.specs.Telling.{telling_stale, beating};
ghost use Rattle.flat.specs.Shown.{shows};
ghost use Rattle.asks.specs.TableAnswer.{reply_of, answer_in};
ghost use Rattle.asks.specs.TableAcknowledging.{sack_reply_of};
ghost use Rattle.asks.specs.TableTimers.{lapsed};
ghost use Rattle.asks.specs.TableMessages.{handed_over, delivered_from};
ghost use Rattle.asks.specs.TableTransmit.{dispatched};
ghost use Rattle.landing.specs.Landing.{landed};
ghost use Rattle.events.specs.Event.{event_of};
ghost use Rattle.events.specs.Happening.{unknown_number, telling_any, halves, happened as defined};
ghost use Rattle.happening.specs.TableTold.{told_plainly};
ghost use Rattle.happening.specs.TableHappening.{lent_table_buffers, left_of, ran_of, table_leaving, with_head, ran_with, table_planned, keeping, table_associates, lapses, hands, dispatches, delivers, table_acknowledges, lands, table_happened};
ghost use Rattle.happening.specs.EventShown.{buffers_shown, EventShows};

use crate::told;
use crate::told::Ran;
use asks::{Answered, answer};
use calls::Reason;
use calls::answer::OUTPUT;
use events::Event;
use flat::{Association, Head};
use numbers::{Refusal, StreamId, Tsn};
use states::Call;
use steps::{Echoed, Lent};

fn with_head(mut a: Association, head: Head) -> Association
    ensures { result ≡ with_head a head }
{
    a.head = head;
    a
}

// What a call that changes no table tells, and the record with the head that it leaves; what is refused leaves the record as it was.
fn ran(a: Association, answer: Result<Answered, Refusal>) -> Ran
    ensures { result ≡ ran_with a (reply_of a.head answer) }
{
    match answer {
        Ok(answered) => Ran {
            told: told::plain(0, answered.length, answered.over),
            association: with_head(a, answered.head),
        },
        Err(refusal) => Ran {
            told: told::refused(refusal),
            association: a,
        },
    }
}

fn first_timer(a: Association, out: &mut [u8]) -> Ran
    ensures { (received sent verdicts input cookie : List ℕ) → left_of result received sent verdicts out.new ≡ table_planned a (expiring (shows a) FirstTimer out.old) (lent_table_buffers received sent verdicts input cookie out.old) }
{
    let answer = asks::t1(a.head, &a.held, &a.places, &a.cookie, out);
    ran(a, answer)
}

fn second_timer(a: Association, out: &mut [u8]) -> Ran
    ensures { (received sent verdicts input cookie : List ℕ) → left_of result received sent verdicts out.new ≡ table_planned a (expiring (shows a) SecondTimer out.old) (lent_table_buffers received sent verdicts input cookie out.old) }
{
    let answer = asks::t2(a.head, &a.held, &a.places, &a.cookie, out);
    ran(a, answer)
}

fn shutdown(a: Association, out: &mut [u8]) -> Ran
    ensures { (received sent verdicts input cookie : List ℕ) → left_of result received sent verdicts out.new ≡ table_planned a (shutting (shows a) out.old) (lent_table_buffers received sent verdicts input cookie out.old) }
{
    let answer = asks::shutdown(a.head, &a.held, &a.places, out);
    ran(a, answer)
}

fn abort(a: Association, why: Reason, out: &mut [u8]) -> Ran
    ensures { (received sent verdicts input cookie : List ℕ) → left_of result received sent verdicts out.new ≡ table_planned a (aborting (shows a) why out.old) (lent_table_buffers received sent verdicts input cookie out.old) }
{
    let answer = asks::abort(a.head, &a.held, &a.places, why, out);
    ran(a, answer)
}

fn error_stale(a: Association, port: u16, tag: u32, late: u32, out: &mut [u8]) -> Ran
    ensures { (received sent verdicts input cookie : List ℕ) → left_of result received sent verdicts out.new ≡ table_planned a (telling_stale (shows a) port tag late out.old) (lent_table_buffers received sent verdicts input cookie out.old) }
{
    let answer = asks::error_stale(a.head, &a.held, &a.places, port, tag, late, out);
    ran(a, answer)
}

// Eight bytes, the high half first.
fn value_of(high: u32, low: u32) -> [u8; 8]
    ensures { result ≡ halves high low }
{
    let mut value = [0u8; 8];
    octets::put32(&mut value, 0, high);
    octets::put32(&mut value, 4, low);
    value
}

fn heartbeat(a: Association, high: u32, low: u32, out: &mut [u8]) -> Ran
    ensures { (received sent verdicts input cookie : List ℕ) → left_of result received sent verdicts out.new ≡ table_planned a (beating (shows a) (halves high low) out.old) (lent_table_buffers received sent verdicts input cookie out.old) }
{
    let answer = asks::heartbeat(a.head, &a.held, &a.places, value_of(high, low), out);
    ran(a, answer)
}

// A stream that no chunk can name is refused, behind what bars the call.
fn tell_stream(a: Association, stream: u32, out: &mut [u8]) -> Result<Answered, Refusal>
    ensures { CallDone (telling_any (shows a) stream out.old) out.old (answer_in (reply_of a.head result) a.held a.next_in a.places a.next_out a.cookie) out.new }
{
    if stream < 65536 {
        return asks::error_stream(a.head, &a.held, &a.places, StreamId(stream as u16), out);
    }
    answer::permitted(
        a.head,
        &a.held,
        &a.places,
        out.len() < OUTPUT,
        Call::Acknowledge,
    )?;
    Err(Refusal::Message)
}

fn error_stream(a: Association, stream: u32, out: &mut [u8]) -> Ran
    ensures { (received sent verdicts input cookie : List ℕ) → left_of result received sent verdicts out.new ≡ table_planned a (telling_any (shows a) stream out.old) (lent_table_buffers received sent verdicts input cookie out.old) }
{
    let answer = tell_stream(a, stream, out);
    ran(a, answer)
}

fn sample(a: Association, ms: u32) -> Ran
    ensures { (received sent verdicts input cookie out : List ℕ) → left_of result received sent verdicts out ≡ keeping a (sampling (shows a) ms) (lent_table_buffers received sent verdicts input cookie out) }
{
    let answer = asks::rtt(a.head, &a.held, &a.places, ms);
    ran(a, answer)
}

fn third_timer(mut a: Association) -> Ran
    ensures { (received sent verdicts input cookie out : List ℕ) → left_of result received sent verdicts out ≡ lapses a (lapsed (barred (shows a) false ThirdTimer) a.head a.places) (lent_table_buffers received sent verdicts input cookie out) }
{
    let answer = asks::t3(a.head, &a.held, &mut a.places);
    ran(a, answer)
}

fn hand_in(
    mut a: Association,
    sent: &mut [u8],
    input: &[u8],
    stream: StreamId,
    unordered: bool,
    ppid: u32,
) -> Ran
    ensures { (received verdicts cookie out : List ℕ) → left_of result received sent.new verdicts out ≡ hands a (handed_over (barred (shows a) (is_short_area sent.old) HandIn) a.head a.places sent.old input.now stream unordered ppid) (lent_table_buffers received sent.old verdicts input.now cookie out) }
{
    let answer = asks::hand_in(
        a.head,
        &a.held,
        &mut a.places,
        sent,
        input,
        stream,
        unordered,
        ppid,
    );
    Ran {
        told: told::of_handed(answer),
        association: a,
    }
}

fn transmit(mut a: Association, sent: &[u8], out: &mut [u8]) -> Ran
    ensures { (received verdicts input cookie : List ℕ) → left_of result received sent.now verdicts out.new ≡ dispatches a (dispatched (transmit_bar (shows a) sent.now out.old) a.head a.places a.next_out sent.now out.old) (lent_table_buffers received sent.now verdicts input cookie out.old) }
{
    match asks::transmit(a.head, &a.held, &mut a.places, &mut a.next_out, sent, out) {
        Ok(transmitted) => {
            a.head = transmitted.head;
            Ran {
                told: told::of_transmitted(transmitted),
                association: a,
            }
        }
        Err(refusal) => Ran {
            told: told::refused(refusal),
            association: a,
        },
    }
}

fn take(mut a: Association, received: &[u8], out: &mut [u8]) -> Ran
    ensures { (sent verdicts input cookie : List ℕ) → left_of result received.now sent verdicts out.new ≡ delivers a (delivered_from (take_bar (shows a) received.now) a.head a.held a.next_in received.now out.old) (lent_table_buffers received.now sent verdicts input cookie out.old) }
{
    let answer = asks::take(
        a.head,
        &mut a.held,
        &mut a.next_in,
        &a.places,
        received,
        out,
    );
    Ran {
        told: told::of_delivered(answer),
        association: a,
    }
}

fn acknowledge(a: Association, out: &mut [u8]) -> Ran
    ensures { (received sent verdicts input cookie : List ℕ) → left_of result received sent verdicts out.new ≡ table_acknowledges a (acknowledged_call (shows a) out.old) (acknowledged_out (shows a) out.old) (lent_table_buffers received sent verdicts input cookie out.old) }
{
    match asks::sack(a.head, &a.held, &a.places, out) {
        Ok(acknowledged) => Ran {
            told: told::of_sack(acknowledged),
            association: with_head(a, acknowledged.head),
        },
        Err(refusal) => Ran {
            told: told::refused(refusal),
            association: a,
        },
    }
}

fn associate(mut a: Association, tag: u32, tsn: Tsn, port: u16, streams: u16, out: &mut [u8]) -> Ran
    ensures { (received sent verdicts input cookie : List ℕ) → left_of result received sent verdicts out.new ≡ table_associates a (associating (shows a) tag tsn port streams out.old) (lent_table_buffers received sent verdicts input cookie out.old) }
{
    let answer = asks::associate(
        a.head,
        &mut a.held,
        &mut a.next_in,
        &mut a.places,
        &mut a.next_out,
        &mut a.cookie,
        tag,
        tsn,
        port,
        streams,
        out,
    );
    ran(a, answer)
}

fn packet(
    mut a: Association,
    from: Lent,
    echoed: Echoed,
    received: &mut [u8],
    verdicts: &mut [u32; 1460],
    input: &[u8],
    cookie: &[u8],
    out: &mut [u8],
) -> Ran
    ensures { (sent : List ℕ) → left_of result received.new sent verdicts.new out.new ≡ lands (landed input.now from cookie.now echoed a.head a.held a.next_in a.places a.next_out a.cookie received.old verdicts.old out.old) (lent_table_buffers received.old sent verdicts.old input.now cookie.now out.old) }
{
    let answer = landing::arrive(
        a.head,
        &mut a.held,
        &mut a.next_in,
        &mut a.places,
        &mut a.next_out,
        &mut a.cookie,
        received,
        verdicts,
        input,
        from,
        cookie,
        echoed,
        out,
    );
    match answer {
        Ok(landed) => Ran {
            told: told::of_landed(landed),
            association: with_head(a, landed.head),
        },
        Err(refusal) => Ran {
            told: told::refused(refusal),
            association: a,
        },
    }
}

fn unknown(a: Association) -> Ran
    ensures { (received sent verdicts input cookie out : List ℕ) → left_of result received sent verdicts out ≡ table_leaving (ran_of (told_plainly (unknown_number (shows a)) 0 false) a) out (lent_table_buffers received sent verdicts input cookie out) }
{
    let refusal = if flat::bounds::is_sound(a.head, &a.held, &a.places) {
        Refusal::State
    } else {
        Refusal::Record
    };
    Ran {
        told: told::refused(refusal),
        association: a,
    }
}

// One event. `input` is the packet that arrives or the message handed in; `cookie` is lent for an INIT. What is left is said twice: word for word, and as the
// definition has it of the record that is shown.
pub fn run(
    a: Association,
    event: Event,
    received: &mut [u8],
    sent: &mut [u8],
    verdicts: &mut [u32; 1460],
    input: &[u8],
    cookie: &[u8],
    out: &mut [u8],
) -> Ran
    ensures out_after { left_of result received.new sent.new verdicts.new out.new ≡ table_happened a event (lent_table_buffers received.old sent.old verdicts.old input.now cookie.now out.old) }
    ensures event_shows { EventShows verdicts.old (left_of result received.new sent.new verdicts.new out.new) (defined (shows a) event (buffers_shown (lent_table_buffers received.old sent.old verdicts.old input.now cookie.now out.old))) }
{
    match event {
        Event::Packet(from, echoed) => packet(
            a, from, echoed, received, verdicts, input, cookie, out,
        ),
        Event::Associate(tag, tsn, port, streams) => associate(a, tag, tsn, port, streams, out),
        Event::HandIn(stream, unordered, ppid) => hand_in(a, sent, input, stream, unordered, ppid),
        Event::Transmit => transmit(a, sent, out),
        Event::Take => take(a, received, out),
        Event::Acknowledge => acknowledge(a, out),
        Event::T1 => first_timer(a, out),
        Event::T2 => second_timer(a, out),
        Event::T3 => third_timer(a),
        Event::Shutdown => shutdown(a, out),
        Event::Abort(why) => abort(a, why, out),
        Event::ErrorStream(stream) => error_stream(a, stream, out),
        Event::ErrorStale(port, tag, late) => error_stale(a, port, tag, late, out),
        Event::Heartbeat(high, low) => heartbeat(a, high, low, out),
        Event::Sample(ms) => sample(a, ms),
        Event::Unknown => unknown(a),
    }
}

// The same of an event by its number and its values.
pub fn run_coded(
    a: Association,
    code: u8,
    values: &[u32],
    received: &mut [u8],
    sent: &mut [u8],
    verdicts: &mut [u32; 1460],
    input: &[u8],
    cookie: &[u8],
    out: &mut [u8],
) -> Ran
    ensures { left_of result received.new sent.new verdicts.new out.new ≡ table_happened a (event_of code values.now) (lent_table_buffers received.old sent.old verdicts.old input.now cookie.now out.old) }
{
    run(
        a,
        Event::of(code, values),
        received,
        sent,
        verdicts,
        input,
        cookie,
        out,
    )
}
