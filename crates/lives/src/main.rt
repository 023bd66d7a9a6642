// Whole lives of an association, in bytes. The input has an event on each line: which end it happens to, what happens, and behind a colon what should
// come of it; the output repeats the line, with what came of it before what should, and whether they are the same.
#![tactic(auto)]

mod bytes;
mod forms;
mod host;
mod sameness;
mod showing;
mod verbs;

use crate::bytes::Bytes;
use crate::host::{Host, LONGEST, SPACE, Said};
use crate::verbs::Verb;
use flat::Association;
use octets::{get8, part};
use pages::page::{compare, plus, say, say_packet, text};
use pages::reading::{deed, rest};

// The descriptor of the standard input.
const STANDARD_INPUT: i32 = 0;

// More lines are not read.
const LINES: usize = 4000;

// How much of an area and of an output is looked at.
const HEAD: usize = 2048;

// How much of an event is repeated.
const ECHOED: usize = 200;

// What stands in an output before an event: what the event does not write, still stands there.
const BLANK: u8 = 0xee;

// Bytes of the longest message, and some more.
const INPUT: usize = 65600;

// An end: its record, a record that was put aside, its host, its last packet, and its areas.
#[derive(Drop)]
struct Side {
    association: Association,
    aside: Association,
    host: Host,
    wire: Bytes<LONGEST>,
    received: [u8; SPACE],
    sent: [u8; SPACE],
}

#[derive(Drop)]
struct Both {
    a: Side,
    b: Side,
}

fn is_blank(out: &[u8], from: usize) -> bool {
    out.iter().skip(from).all(|byte| *byte == BLANK)
}

fn say_if(should: &[u8], at: usize, told: bool, s: &[u8]) -> usize {
    if told { say(should, at, s) } else { at }
}

fn say_sent(should: &[u8], at: usize, packet: &[u8]) -> usize {
    if packet.is_empty() {
        return at;
    }
    let to = say(should, at, b" /");
    say_packet(should, to, packet)
}

// The state, whether the record and the areas are kept, and the packet.
fn tell(should: &[u8], a: &Association, said: &Said, changed: bool, out: &[u8]) {
    let is_same = sameness::same_record(a, &said.association);
    let is_spilt = !is_blank(part(out, 0, HEAD), said.written);
    let p = say(should, said.at, b" / ");
    let q = showing::say_state(should, p, said.association.head.state);
    let s = say_if(should, q, is_same, b" kept");
    let t = say_if(should, s, changed, b" area");
    let u = say_if(should, t, is_spilt, b" SPILT");
    compare(should, say_sent(should, u, part(out, 0, said.length)));
}

// The heads of an end's areas, by their checksums.
fn sums(received: &[u8], sent: &[u8]) -> [u32; 2] {
    [
        crc32c::crc32c(part(received, 0, HEAD)),
        crc32c::crc32c(part(sent, 0, HEAD)),
    ]
}

impl Side {
    fn new() -> Self {
        let association = Association::closed(0, 0);
        Side {
            association,
            aside: association,
            host: Host::new(),
            wire: Bytes::new(),
            received: [0; SPACE],
            sent: [0; SPACE],
        }
    }

    // The record put aside, or the present one.
    fn start(&self, line: &[u8]) -> Association {
        match verbs::of(line) {
            Verb::From => self.aside,
            _ => self.association,
        }
    }

    // The packet that was written is the end's last one.
    fn settle(&mut self, said: &Said, out: &[u8]) {
        self.association = said.association;
        if said.length != 0 {
            self.wire.set(part(out, 0, said.length));
        }
    }

    // An event, with the last packet of the other end.
    fn live(&mut self, last: &[u8], line: &[u8], should: &[u8]) {
        text(b": ");
        let a = self.start(line);
        let event = verbs::behind(line, Verb::From);
        let mut buffer = [0u8; INPUT];
        let input = host::input_of(verbs::deed(event), last, &mut buffer);
        let mut out = [BLANK; SPACE];
        let before = sums(&self.received, &self.sent);
        let said = host::acts(
            &a,
            &self.host,
            event,
            input,
            &mut self.received,
            &mut self.sent,
            &mut out,
            should,
        );
        let after = sums(&self.received, &self.sent);
        tell(should, &a, &said, before != after, &out);
        self.settle(&said, &out);
    }

    // A record is put aside, the host changes its mind, or an event happens.
    fn turn(&mut self, other: &Side, event: &[u8], should: &[u8]) {
        match verbs::of(event) {
            Verb::Saves => self.aside = self.association,
            Verb::Lends => self.host.lend(event),
            Verb::Judges => self.host.judge(event),
            _ => return self.live(other.wire.as_slice(), event, should),
        }
        text(b"\n");
    }
}

// A line: an event of A, one of B, or a heading. What should come of it is cut where the deed ends, since a search for the colon of its own would go
// through a long line again.
fn turn(both: &mut Both, line: &[u8]) {
    let event = deed(line);
    let should = part(line, plus(event.len(), 2), line.len());
    text(part(event, 0, ECHOED));
    match get8(line, 0) {
        b'A' => both.a.turn(&both.b, rest(event), should),
        b'B' => both.b.turn(&both.a, rest(event), should),
        _ => text(b"\n"),
    }
}

fn run(script: &[u8]) {
    let mut both = Both {
        a: Side::new(),
        b: Side::new(),
    };
    for line in script.split_inclusive(|byte| *byte == b'\n').take(LINES) {
        turn(&mut both, line.strip_suffix(b"\n").unwrap_or(line));
    }
}

fn main() {
    let mut script = [0u8; 262144];
    let n = io::read_full(STANDARD_INPUT, &mut script);
    run(&script[..n]);
}
