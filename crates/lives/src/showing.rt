// What is said of a record, of an event, and of a packet that is only looked at.
use crate::forms::say_form;
use crate::{host, sameness};
use calls::Peeked;
use chunks::init::Init;
use chunks::sack::Sack;
use events::told::Went;
use flat::{Association, Head};
use happening::Told;
use holding::taking::Message;
use numbers::{Keeping, Refusal};
use octets::part;
use pages::page::{say, say_answer, say_named, say_number, say_packet};
use path::Path;
use sender::Sender;
use states::State;

// The states by the letters of the state table, those that wait with their tries.
pub(crate) fn say_state(should: &[u8], at: usize, s: State) -> usize {
    match s {
        State::Closed => say(should, at, b"CL"),
        State::CookieWait(tries) => say_named(should, at, b"CW", u64::from(tries)),
        State::CookieEchoed(tries) => say_named(should, at, b"CE", u64::from(tries)),
        State::Established => say(should, at, b"ES"),
        State::ShutdownPending => say(should, at, b"SP"),
        State::ShutdownSent(tries) => say_named(should, at, b"SS", u64::from(tries)),
        State::ShutdownReceived => say(should, at, b"SR"),
        State::ShutdownAckSent(tries) => say_named(should, at, b"SA", u64::from(tries)),
    }
}

fn say_ends(should: &[u8], h: &Head) -> usize {
    say_form(
        should,
        0,
        b"ports # # tags # # streams # # cookie #",
        &sameness::ends_of(h),
    )
}

fn say_come(should: &[u8], at: usize, k: &Keeping, held: &[u32; 512]) -> usize {
    let n = sameness::come_of(k, held);
    say_form(should, at, b", point # highest # free # listed #", &n)
}

fn say_going(should: &[u8], at: usize, s: &Sender, places: &[u32; 1024]) -> usize {
    let n = sameness::going_of(s);
    let p = sameness::placed_of(places);
    let to = say_form(should, at, b", acknowledged # next # window #", &n);
    say_form(should, to, b", waiting # flying # marked # blocked #", &p)
}

fn say_path(should: &[u8], at: usize, p: &Path) -> usize {
    let n = sameness::path_of(p);
    say_form(
        should,
        at,
        b", flight # cwnd # ssthresh # partial # recovery # RTO # tries #",
        &n,
    )
}

// Ports, tags, streams, the cookie's length; what has come; what goes.
pub(crate) fn say_record(should: &[u8], a: &Association) -> usize {
    let b = say_ends(should, &a.head);
    let c = say_come(should, b, &a.head.keeping, &a.held);
    let d = say_going(should, c, &a.head.sender, &a.places);
    say_path(should, d, &a.head.sender.path)
}

// ---- a packet that arrived

// What became of a chunk, with its number if it is refused: its fate and number are the low bytes of a word.
fn say_fate(should: &[u8], at: usize, word: u32) -> usize {
    let [_, _, fate, number] = word.to_be_bytes();
    match fate {
        0 => say(should, at, b" ok"),
        1 => say_named(should, at, b" no ", u64::from(number)),
        2 => say(should, at, b" skip"),
        3 => say(should, at, b" skip and report"),
        4 => say(should, at, b" stop"),
        5 => say(should, at, b" stop and report"),
        6 => say(should, at, b" unread"),
        _ => at,
    }
}

// The call that is named, by its cause, and what it takes; what happened. Cause and event are a word.
fn say_call(should: &[u8], at: usize, word: u32, value: u32) -> usize {
    match word / 256 {
        0 => at,
        cause => say_form(
            should,
            at,
            b" cause # of #",
            &[u64::from(cause), u64::from(value)],
        ),
    }
}

fn say_event(should: &[u8], at: usize, word: u32) -> usize {
    match word % 256 {
        1 => say(should, at, b" up"),
        2 => say(should, at, b" aborted"),
        3 => say(should, at, b" stale"),
        4 => say(should, at, b" host name"),
        5 => say(should, at, b" shut down"),
        6 => say(should, at, b" restarted"),
        7 => say(should, at, b" retagged"),
        _ => at,
    }
}

// The four words of a verdict.
fn say_verdict(should: &[u8], at: usize, verdict: &[u32; 4]) -> usize {
    let [place, value, fate, call] = *verdict;
    let a = say_number(should, at, u64::from(place));
    let b = say_fate(should, a, fate);
    let c = say_call(should, b, call, value);
    let d = say_event(should, c, call);
    say(should, d, b", ")
}

// The number of the packet if it is refused, else the verdicts of its chunks.
fn say_arrived(should: &[u8], number: u8, count: usize, verdicts: &[u32; 1460]) -> usize {
    if number != 0 {
        return say_answer(should, 0, number);
    }
    let (verdicts, _) = verdicts.as_chunks::<4>();
    let mut to = 0;
    for verdict in verdicts.iter().take(count) {
        to = say_verdict(should, to, verdict);
    }
    say(should, to, b"all")
}

// ---- any other event

fn say_message(should: &[u8], at: usize, m: &Message) -> usize {
    say_form(
        should,
        at,
        b" stream # unordered # SSN # PPID #",
        &[
            u64::from(m.stream.0),
            u64::from(m.unordered),
            u64::from(m.ssn.0),
            u64::from(m.ppid),
        ],
    )
}

// The length, or the length needed; then the message.
fn say_delivered(should: &[u8], number: u8, m: &Message, out: &[u8]) -> usize {
    let a = say_answer(should, 0, number);
    let b = say_named(should, a, b" of ", m.length as u64);
    if number != 0 {
        return b;
    }
    let c = say_message(should, b, m);
    say_packet(should, c, part(out, 0, m.length))
}

fn say_went(should: &[u8], at: usize, w: &Went) -> usize {
    say_form(
        should,
        at,
        b" resent # TSN # to #",
        &[
            u64::from(w.resent),
            u64::from(w.first.0),
            u64::from(w.last.0),
        ],
    )
}

fn say_sack(should: &[u8], at: usize, k: &Sack) -> usize {
    say_form(
        should,
        at,
        b" blocks # listed #",
        &[k.blocks.count as u64, k.listed as u64],
    )
}

fn say_answered(should: &[u8], code: u8, t: &Told) -> usize {
    let at = say_answer(should, 0, t.number);
    match code {
        host::HAND_IN | host::HAND_IN_UNORDERED => {
            say_named(should, at, b" chunks ", t.length as u64)
        }
        host::TRANSMIT => say_went(should, at, &t.went),
        host::ACKNOWLEDGE => say_sack(should, at, &t.sack),
        _ if t.over => say(should, at, b" over"),
        _ => at,
    }
}

// Each event by its number; `out` is what was written.
pub(crate) fn say_told(
    should: &[u8],
    code: u8,
    t: &Told,
    verdicts: &[u32; 1460],
    out: &[u8],
) -> usize {
    match code {
        host::BAD | host::STALE | host::GOOD => { say_arrived(should, t.number, t.count, verdicts) }
        host::TAKE => say_delivered(should, t.number, &t.message, out),
        _ => say_answered(should, code, t),
    }
}

// ---- a packet that is only looked at

fn say_init(should: &[u8], v: &Init, port: u16) -> usize {
    say_form(
        should,
        0,
        b"INIT from # tag # window # streams # # TSN #",
        &[
            u64::from(port),
            u64::from(v.tag),
            u64::from(v.window),
            u64::from(v.outs),
            u64::from(v.ins),
            u64::from(v.tsn.0),
        ],
    )
}

pub(crate) fn say_peeked(should: &[u8], seen: &Result<Option<Peeked>, Refusal>) -> usize {
    match seen {
        Err(refusal) => say_answer(should, 0, refusal.number()),
        Ok(None) => say(should, 0, b"nothing"),
        Ok(Some(Peeked::Init(v, port, _))) => say_init(should, v, *port),
        Ok(Some(Peeked::Echo(from, len))) => say_form(
            should,
            0,
            b"echo at # of #",
            &[*from as u64, *len as u64],
        ),
    }
}
