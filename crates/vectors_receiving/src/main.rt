// The worked examples of receiving, C8 to C11 among them. The input has a step on each line, and behind a colon what should come of it; the output repeats the
// line, with what came of it before what should, and whether they are the same. A chunk is said by TSN, FLAGS, STREAM, SSN, LENGTH, PPID: of its flags the letters
// U, B, E that are set, or -; every byte of its payload is its TSN modulo 251. 128 streams are agreed.
#![tactic(auto)]

use delivery::Verdict;
use holding::{Answer, Chunk, Held, Message};
use incoming::Incoming;
use numbers::{Blocks, Rail, Ssn, StreamId, Tsn};
use octets::{get8, part};
use pages::page::{compare, say, say_answer, say_named, say_number, say_unread, text};
use pages::reading::{deed, first, is_heading, line_at, rest, should, value16, value32, word};

// The descriptor of the standard input.
const STANDARD_INPUT: i32 = 0;

// Bytes of the area, and of a take's output.
const AREA: usize = 65536;

// ---- a chunk

// The chunk behind a word, at a number.
fn chunk(line: &[u8], tsn: Tsn) -> Chunk {
    let flags = word(line, 2);
    Chunk {
        begin: flags.contains(&b'B'),
        end: flags.contains(&b'E'),
        unordered: flags.contains(&b'U'),
        tsn,
        stream: StreamId(value16(line, 3)),
        ssn: Ssn(value16(line, 4)),
        ppid: value32(line, 6),
    }
}

fn number_of(v: Verdict) -> u8 {
    match v {
        Verdict::Kept => 0,
        Verdict::Empty => 9,
        Verdict::Long => 10,
        Verdict::Opposite => 24,
        Verdict::Duplicate => 11,
        Verdict::Wedged => 12,
        Verdict::Far => 13,
        Verdict::Stray => 14,
        Verdict::Clashing => 21,
    }
}

// The number that the chunk is answered.
fn deliver(r: &mut Incoming, area: &mut [u8; AREA], line: &[u8], tsn: Tsn) -> u8 {
    let payload = [(tsn.0 % 251) as u8; 513];
    let n = usize::from(value16(line, 5));
    let came = incoming::arrive(*r, area, chunk(line, tsn), part(&payload, 0, n), 128);
    *r = came.incoming;
    number_of(came.verdict)
}

// arrives CHUNK: its number
fn say_arrival(r: &mut Incoming, area: &mut [u8; AREA], line: &[u8], right: &[u8]) -> usize {
    say_answer(right, 0, deliver(r, area, line, Tsn(value32(line, 1))))
}

// fills CHUNK TIMES, from its TSN on: the number of the last, and how many up to it had the same
fn say_filled(r: &mut Incoming, area: &mut [u8; AREA], line: &[u8], right: &[u8]) -> usize {
    let start = Tsn(value32(line, 1));
    let mut last = 0;
    let mut alike: u32 = 0;
    for i in 0..value32(line, 7) {
        let number = deliver(r, area, line, start.after(i));
        alike = if number == last {
            alike.wrapping_add(1)
        } else {
            1
        };
        last = number;
    }
    let a = say_number(right, 0, u64::from(alike));
    let b = say(right, a, b" ");
    say_answer(right, b, last)
}

// ---- a take

// Its first byte, and its last.
fn say_bytes(right: &[u8], at: usize, out: &[u8; AREA], n: usize) -> usize {
    let last = n.checked_sub(1).map_or(0, |i| get8(out, i));
    let a = say_named(right, at, b" bytes ", u64::from(out[0]));
    say_named(right, a, b" to ", u64::from(last))
}

fn say_message(right: &[u8], at: usize, m: &Message) -> usize {
    let a = say_named(right, at, b" stream ", u64::from(m.stream.0));
    let b = say_named(right, a, b" unordered ", u64::from(m.unordered));
    let c = say_named(right, b, b" SSN ", u64::from(m.ssn.0));
    say_named(right, c, b" PPID ", u64::from(m.ppid))
}

fn say_given(right: &[u8], m: &Message, out: &[u8; AREA]) -> usize {
    let a = say_named(right, 0, b"ok of ", m.length as u64);
    let b = say_message(right, a, m);
    say_bytes(right, b, out, m.length)
}

// takes ROOM: the number, and the message; of 18 the length needed
fn say_take(r: &mut Incoming, area: &[u8; AREA], line: &[u8], right: &[u8]) -> usize {
    let mut out = [0u8; AREA];
    let room = AREA.min(value32(line, 1) as usize);
    let took = incoming::take(*r, area, &mut out[..room]);
    *r = took.incoming;
    match took.answer {
        Answer::Taken(m) => say_given(right, &m, &out),
        Answer::Nothing => say_answer(right, 0, 17),
        Answer::Short(n) => say_named(right, 0, b"no 18 of ", n as u64),
    }
}

// ---- a SACK

fn say_blocks(right: &[u8], at: usize, blocks: &Blocks) -> usize {
    let mut to = say_named(right, at, b" blocks ", blocks.count as u64);
    for (start, end) in blocks.starts.iter().zip(&blocks.ends).take(blocks.count) {
        let a = say_named(right, to, b" ", u64::from(*start));
        to = say_named(right, a, b"-", u64::from(*end));
    }
    to
}

fn say_dups(right: &[u8], at: usize, dups: &[Tsn; Rail::LISTED], listed: usize) -> usize {
    let mut to = say_named(right, at, b" duplicates ", listed as u64);
    for tsn in dups.iter().take(listed) {
        to = say_named(right, to, b" ", u64::from(tsn.0));
    }
    to
}

// sacks: the point, the window, how many blocks and each, how many duplicates and each
fn say_sack(r: &mut Incoming, right: &[u8]) -> usize {
    let told = incoming::sack(*r);
    *r = told.incoming;
    let sack = told.sack;
    let a = say_named(right, 0, b"point ", u64::from(sack.point.0));
    let b = say_named(right, a, b" window ", u64::from(sack.window));
    let c = say_blocks(right, b, &sack.blocks);
    say_dups(right, c, &sack.dups, sack.listed)
}

// ---- the bounds

// bounds: 1 where the record is outside them
fn say_bounds(r: &Incoming, right: &[u8]) -> usize {
    let is_sound = reception::bounds::is_sound(r.keeping, &r.held);
    say_answer(right, 0, u8::from(!is_sound))
}

// ---- records of a line's own making

// expects STREAM SSN
fn expect(r: &mut Incoming, line: &[u8]) {
    let stream = usize::from(value16(line, 1));
    tables::ssns::put_ssn(&mut r.next, stream, Ssn(value16(line, 2)));
}

// holds PLACE CHUNK: it is not marked come
fn hold(r: &mut Incoming, line: &[u8]) {
    let place = usize::from(value16(line, 1));
    let behind = rest(line);
    let held = Held::of(chunk(behind, Tsn(value32(behind, 1))), value16(behind, 5));
    tables::held::put_held(&mut r.held, place, held);
}

// fresh TSN, of the peer's first; or one of the two above
fn prepare(r: &mut Incoming, area: &mut [u8; AREA], line: &[u8]) {
    match first(line) {
        b"fresh" => {
            *area = [0; AREA];
            *r = Incoming::fresh(Tsn(value32(line, 1)));
        }
        b"expects" => expect(r, line),
        b"holds" => hold(r, line),
        _ => text(b" unread"),
    }
}

// ---- the lines

fn say_done(r: &mut Incoming, area: &mut [u8; AREA], line: &[u8], right: &[u8]) -> usize {
    match first(line) {
        b"arrives" => say_arrival(r, area, line, right),
        b"fills" => say_filled(r, area, line, right),
        b"takes" => say_take(r, area, line, right),
        b"sacks" => say_sack(r, right),
        b"bounds" => say_bounds(r, right),
        _ => say_unread(right),
    }
}

// A line without a colon prepares a record.
fn turn(r: &mut Incoming, area: &mut [u8; AREA], line: &[u8]) {
    if is_heading(line) {
        text(line);
        text(b"\n");
        return;
    }
    let event = deed(line);
    text(event);
    if event.len() == line.len() {
        prepare(r, area, event);
        text(b"\n");
        return;
    }
    text(b": ");
    let right = should(line);
    compare(right, say_done(r, area, event, right));
}

fn run(script: &[u8]) {
    let mut area = [0u8; AREA];
    let mut r = Incoming::fresh(Tsn(0));
    for line in script.split_inclusive(|byte| *byte == b'\n') {
        turn(&mut r, &mut area, line_at(line, 0));
    }
}

fn main() {
    let mut script = [0u8; 65536];
    let n = io::read_full(STANDARD_INPUT, &mut script);
    run(&script[..n]);
}
