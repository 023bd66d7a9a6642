// What the host does: each line names an event of its association, a packet that comes, or a record of the line's own making.
ghost use Rattle.std.specs.Prelude.{◌≤◌};

use crate::bytes::Bytes;
use crate::verbs::Verb;
use crate::{showing, verbs};
use flat::{Association, Head};
use happening::Told;
use numbers::Rail;
use octets::{get32, part};
use pages::page::say;
use pages::reading::{rest, spell, value16, value32, word};
use states::State;

// Of a packet; of an area, and of the output of a take.
pub(crate) const LONGEST: usize = Rail::LONGEST_PACKET;

pub(crate) const SPACE: usize = Rail::AREA;

// Of a cookie that is lent, which may be longer than any that goes out.
const LENT: usize = 300;

// The numbers of events, as `happening::run_coded` takes them. That of a packet is the host's word on an echoed cookie.
pub(crate) const BAD: u8 = 0;

pub(crate) const STALE: u8 = 1;

pub(crate) const GOOD: u8 = 2;

pub(crate) const ASSOCIATE: u8 = 3;

pub(crate) const HAND_IN: u8 = 4;

pub(crate) const HAND_IN_UNORDERED: u8 = 5;

pub(crate) const TRANSMIT: u8 = 6;

pub(crate) const TAKE: u8 = 7;

pub(crate) const ACKNOWLEDGE: u8 = 8;

const ABORT: u8 = 13;

const ABORT_NO_DATA: u8 = 14;

const ABORT_VIOLATION: u8 = 15;

const HEARTBEAT: u8 = 18;

// What the host lends with a packet, as the event of one: for an INIT its tag, its first TSN, its streams, and a cookie; for a COOKIE ECHO what the cookie
// was made from; and its word.
#[derive(Drop)]
pub(crate) struct Host {
    word: u8,
    values: [u32; 12],
    cookie: Bytes<LENT>,
}

// An event by its number, and its values.
#[derive(Drop)]
struct Event {
    code: u8,
    values: [u32; 12],
}

// The record after an event, the length of the packet that it wrote, how many bytes it wrote at all, and how far what it answered is as it should be.
#[derive(Drop)]
pub(crate) struct Said {
    pub(crate) association: Association,
    pub(crate) length: usize,
    pub(crate) written: usize,
    pub(crate) at: usize,
}

// Of the words behind the verb: a line is looked through seven words far, so the ties are read from the middle on.
fn judged(line: &[u8], k: usize) -> u32 {
    let told = rest(line);
    match k {
        8 => value32(rest(rest(rest(rest(told)))), 4),
        9 => value32(rest(rest(rest(rest(told)))), 5),
        _ => value32(told, k),
    }
}

impl Host {
    pub(crate) fn new() -> Self {
        Host {
            word: BAD,
            values: [0; 12],
            cookie: Bytes::new(),
        }
    }

    // lends TAG TSN STREAMS COOKIE
    pub(crate) fn lend(&mut self, line: &[u8]) {
        let mut buffer = [0u8; LENT];
        let cookie = spelt(word(line, 4), &mut buffer);
        self.values[0] = value32(line, 1);
        self.values[1] = value32(line, 2);
        self.values[2] = value32(line, 3);
        self.cookie.set(cookie);
    }

    // good or stale, with MY TAG, PEER'S TAG, STREAMS IN, OUT, MY TSN, PEER'S TSN, WINDOW, and the ties, MY and PEER'S, where there are some; or bad
    pub(crate) fn judge(&mut self, line: &[u8]) {
        for k in 1..10 {
            self.values[k + 2] = judged(line, k);
        }
        self.word = match word(line, 1) {
            b"stale" => STALE,
            b"good" => GOOD,
            // With no word behind it, the next packet's event is an associate.
            b"" => ASSOCIATE,
            _ => BAD,
        };
    }
}

// What a text spells, in a buffer.
fn spelt<'a>(s: &[u8], buffer: &'a mut [u8]) -> &'a [u8] {
    let n = spell(s, buffer, 0);
    part(buffer, 0, n)
}

// ---- packets that come, and messages

// Ports, tag and chunks, which then move behind the checksum.
fn sealed<'a>(args: &[u8], packet: &'a mut [u8]) -> &'a [u8] {
    spell(args, packet, 0);
    let header = packets::read_header(packet);
    let n = spell(rest(rest(args)), packet, 12);
    let length = packets::seal(packet, n, header);
    part(packet, 0, length)
}

// What is handed to the event: the other end's last packet, one whose bytes all stand there, the checksum too, one that is sealed, or a message behind
// STREAM UNORDERED PPID.
pub(crate) fn input_of<'a>(line: &[u8], last: &'a [u8], buffer: &'a mut [u8]) -> &'a [u8] {
    match verbs::of(line) {
        Verb::Gets | Verb::Peeks => last,
        Verb::Raw => spelt(rest(line), buffer),
        Verb::Hears | Verb::Glances => sealed(rest(line), buffer),
        Verb::Hands => spelt(rest(rest(rest(rest(line)))), buffer),
        _ => &[],
    }
}

// ---- the event of a line, by its number and its values

fn numbered(code: u8, a: u32, b: u32, c: u32, d: u32) -> Event {
    Event {
        code,
        values: [a, b, c, d, 0, 0, 0, 0, 0, 0, 0, 0],
    }
}

// associates TAG TSN PORT STREAMS; lates PORT TAG MICROSECONDS; strays STREAM; rtt MILLISECONDS
fn called(code: u8, line: &[u8]) -> Event {
    numbered(
        code,
        value32(line, 1),
        value32(line, 2),
        value32(line, 3),
        value32(line, 4),
    )
}

// hands STREAM UNORDERED PPID BYTES
fn handed(line: &[u8]) -> Event {
    let code = if value32(line, 2) == 1 {
        HAND_IN_UNORDERED
    } else {
        HAND_IN
    };
    handed_as(code, line)
}

fn handed_as(code: u8, line: &[u8]) -> Event {
    numbered(code, value32(line, 1), value32(line, 3), 0, 0)
}

// aborts user, data TSN, or violation
fn aborted(line: &[u8]) -> Event {
    match word(line, 1) {
        b"data" => numbered(ABORT_NO_DATA, value32(line, 2), 0, 0, 0),
        b"violation" => called(ABORT_VIOLATION, line),
        _ => called(ABORT, line),
    }
}

// beats VALUE
fn beaten(line: &[u8]) -> Event {
    let mut value = [0u8; 8];
    spell(word(line, 1), &mut value, 0);
    numbered(HEARTBEAT, get32(&value, 0), get32(&value, 4), 0, 0)
}

// A packet has what the host lends.
fn come(host: &Host, line: &[u8]) -> Event {
    match host.word {
        ASSOCIATE => called(ASSOCIATE, line),
        word => Event {
            code: word,
            values: host.values,
        },
    }
}

// The event of a line.
fn event_of(host: &Host, line: &[u8]) -> Event {
    match verbs::of(line) {
        Verb::Hears | Verb::Gets | Verb::Raw => come(host, line),
        Verb::Hands => handed(line),
        Verb::Event(HAND_IN_UNORDERED) => handed_as(HAND_IN_UNORDERED, line),
        Verb::Aborts => aborted(line),
        Verb::Beats => beaten(line),
        Verb::Event(code) => called(code, line),
        _ => called(TAKE, line),
    }
}

// A take that is refused for want of room tells the length needed, and a message that is handed in its chunks; a message that is taken is no packet.
fn outcome(association: Association, code: u8, t: &Told, at: usize) -> Said {
    let written = match code {
        HAND_IN | HAND_IN_UNORDERED => 0,
        TAKE if t.number != 0 => 0,
        _ => t.length,
    };
    Said {
        association,
        length: if code == TAKE { 0 } else { written },
        written,
        at,
    }
}

// Every event goes through here.
fn happens(
    a: &Association,
    event: &Event,
    cookie: &[u8],
    input: &[u8],
    received: &mut [u8],
    sent: &mut [u8],
    out: &mut [u8],
    should: &[u8],
) -> Said {
    let mut verdicts = [0u32; 1460];
    let ran = happening::run_coded(
        *a,
        event.code,
        &event.values,
        received,
        sent,
        &mut verdicts,
        input,
        cookie,
        out,
    );
    let at = showing::say_told(should, event.code, &ran.told, &verdicts, out);
    outcome(ran.association, event.code, &ran.told, at)
}

// ---- records that no call leaves

// spoils flight, tag, tries or come
fn spoil(h: &mut Head, what: &[u8]) {
    match what {
        b"flight" => h.sender.path.flight = 1,
        b"tag" => h.ends.my_tag = 0,
        b"tries" => h.state = State::CookieWait(9),
        _ => h.keeping.come[0] = true,
    }
}

// closed PORT MODE: the book, 0 where none is said
fn closed(line: &[u8]) -> Association {
    let mode = u8::try_from(value16(line, 2)).unwrap_or(255);
    Association::closed(value16(line, 1), mode)
}

// A closed record, a spoilt one, or the present one.
fn made_up(a: &Association, line: &[u8]) -> Association {
    match verbs::of(line) {
        Verb::Closed => closed(line),
        Verb::Spoils => {
            let mut spoilt = *a;
            spoil(&mut spoilt.head, word(line, 1));
            spoilt
        }
        _ => *a,
    }
}

// ---- a line

fn kept(association: Association, at: usize) -> Said {
    Said {
        association,
        length: 0,
        written: 0,
        at,
    }
}

// What is no event.
fn acts_alone(a: &Association, line: &[u8], packet: &[u8], should: &[u8]) -> Said {
    match verbs::of(line) {
        Verb::Peeks | Verb::Glances => {
            kept(*a, showing::say_peeked(should, &calls::peek(packet)))
        }
        Verb::Shows => kept(*a, showing::say_record(should, a)),
        _ => kept(made_up(a, line), say(should, 0, b"ok")),
    }
}

// `small`: the areas lack a byte.
fn area_of(line: &[u8], len: usize) -> usize
    ensures { result ≤ len }
{
    match verbs::of(line) {
        Verb::Small => len.min(SPACE - 1),
        _ => len,
    }
}

// `short`: the output lacks a byte. A take has a longer one.
fn room_of(line: &[u8], len: usize) -> usize
    ensures { result ≤ len }
{
    match verbs::of(line) {
        Verb::Short => len.min(LONGEST - 1),
        Verb::Takes => len,
        Verb::TakesEight => len.min(8),
        _ => len.min(LONGEST),
    }
}

// `input` is what is handed to the event.
pub(crate) fn acts(
    a: &Association,
    host: &Host,
    line: &[u8],
    input: &[u8],
    received: &mut [u8],
    sent: &mut [u8],
    out: &mut [u8],
    should: &[u8],
) -> Said {
    let deed = verbs::deed(line);
    if !verbs::of(deed).is_event() {
        return acts_alone(a, deed, input, should);
    }
    let i = area_of(line, received.len());
    let j = area_of(line, sent.len());
    let n = room_of(line, out.len());
    happens(
        a,
        &event_of(host, deed),
        host.cookie.as_slice(),
        input,
        &mut received[..i],
        &mut sent[..j],
        &mut out[..n],
        should,
    )
}
