// The published vectors of the checksum and the worked examples of the circle. The input has one on each line, and behind a colon what should come of it; the
// output repeats the line, with what came of it before what should, and whether they are the same.
#![tactic(auto)]

use numbers::{Distance, Judgement, Ssn, Tsn};
use octets::part;
use pages::page::{compare, say, say_named, say_number, say_packet, say_unread, text};
use pages::reading::{deed, first, is_heading, line_at, rest, should, spell, value16, value32};

// The descriptor of the standard input.
const STANDARD_INPUT: i32 = 0;

// ---- the checksum

// The packet that a line spells behind its verb, in a buffer.
fn packet_in<'a>(line: &[u8], buffer: &'a mut [u8]) -> &'a [u8] {
    let n = spell(rest(line), buffer, 0);
    part(buffer, 0, n)
}

// crc BYTES: the checksum as its four bytes stand on the wire
fn say_crc(line: &[u8], right: &[u8]) -> usize {
    let mut buffer = [0u8; 64];
    let sum = crc32c::crc32c(packet_in(line, &mut buffer));
    let mut packet = [0u8; 12];
    crc32c::put_checksum(&mut packet, sum);
    let a = say(right, 0, b"sum");
    say_packet(right, a, &packet[8..])
}

// sealed BYTES: whether the packet's own field has its checksum
fn say_sealed(line: &[u8], right: &[u8]) -> usize {
    let mut buffer = [0u8; 64];
    let is_sealed = crc32c::is_sealed(packet_in(line, &mut buffer));
    say_number(right, 0, u64::from(is_sealed))
}

// seals BYTES: the packet with its checksum in its own field
fn say_sealing(line: &[u8], right: &[u8]) -> usize {
    let mut buffer = [0u8; 64];
    let n = spell(rest(line), &mut buffer, 0);
    let sum = crc32c::packet_crc(part(&buffer, 0, n));
    crc32c::put_checksum(&mut buffer, sum);
    let a = say(right, 0, b"packet");
    say_packet(right, a, part(&buffer, 0, n))
}

// ---- the circles

fn say_distance(right: &[u8], distance: Distance) -> usize {
    match distance {
        Distance::Ahead(n) => say_named(right, 0, b"+", u64::from(n)),
        Distance::Behind(n) => say_named(right, 0, b"-", u64::from(n)),
        Distance::Opposite => say(right, 0, b"opposite"),
    }
}

// tsns FROM TO: the distance
fn say_tsns(line: &[u8], right: &[u8]) -> usize {
    let from = Tsn(value32(line, 1));
    say_distance(right, from.distance(Tsn(value32(line, 2))))
}

// ssns FROM TO: the distance
fn say_ssns(line: &[u8], right: &[u8]) -> usize {
    let from = Ssn(value16(line, 1));
    say_distance(right, from.distance(Ssn(value16(line, 2))))
}

// tsn FROM STEPS: the number so many steps on
fn say_tsn(line: &[u8], right: &[u8]) -> usize {
    let from = Tsn(value32(line, 1));
    say_number(right, 0, u64::from(from.after(value32(line, 2)).0))
}

// ssn FROM STEPS: the number so many steps on
fn say_ssn(line: &[u8], right: &[u8]) -> usize {
    let from = Ssn(value16(line, 1));
    say_number(right, 0, u64::from(from.after(value16(line, 2)).0))
}

// judge TSN FROM ROOM
fn say_judged(line: &[u8], right: &[u8]) -> usize {
    let from = Tsn(value32(line, 2));
    match from.judge(Tsn(value32(line, 1)), value32(line, 3)) {
        Judgement::AtOrBehind => say(right, 0, b"at or behind"),
        Judgement::AheadWithin(n) => say_named(right, 0, b"within ", u64::from(n)),
        Judgement::AheadBeyond(n) => say_named(right, 0, b"beyond ", u64::from(n)),
        Judgement::AtOpposite => say(right, 0, b"opposite"),
    }
}

// ---- the lines

fn say_done(line: &[u8], right: &[u8]) -> usize {
    match first(line) {
        b"crc" => say_crc(line, right),
        b"sealed" => say_sealed(line, right),
        b"seals" => say_sealing(line, right),
        b"tsns" => say_tsns(line, right),
        b"ssns" => say_ssns(line, right),
        b"tsn" => say_tsn(line, right),
        b"ssn" => say_ssn(line, right),
        b"judge" => say_judged(line, right),
        _ => say_unread(right),
    }
}

fn turn(line: &[u8]) {
    if is_heading(line) {
        text(line);
        text(b"\n");
        return;
    }
    let event = deed(line);
    let right = should(line);
    text(event);
    text(b": ");
    compare(right, say_done(event, right));
}

fn run(script: &[u8]) {
    for line in script.split_inclusive(|byte| *byte == b'\n') {
        turn(line_at(line, 0));
    }
}

fn main() {
    let mut script = [0u8; 65536];
    let n = io::read_full(STANDARD_INPUT, &mut script);
    run(&script[..n]);
}
