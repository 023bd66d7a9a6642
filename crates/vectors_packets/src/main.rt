// Packets in bytes and what each is answered. The input has a packet on each line, and behind a colon what should come of it; the output repeats the line, with
// what came of it before what should, and whether they are the same.
#![tactic(auto)]

use numbers::refusal::number_of;
use octets::{part, put_all, put8, put16};
use packets::Header;
use pages::page::{compare, say_answer, say_named, say_number, say_packet, say_unread, text};
use pages::reading::{deed, first, is_heading, line_at, rest, should, spell, value16};

// The descriptor of the standard input.
const STANDARD_INPUT: i32 = 0;

// A COOKIE ACK.
const COOKIE_ACK: &[u8] = b"\x0b\x00\x00\x04";

// Bytes of a header.
const HEADER: usize = 12;

// size N: of a packet of so many bytes
fn size(line: &[u8]) -> u8 {
    let buffer = [0u8; 2048];
    number_of(packets::check_size(part(&buffer, 0, usize::from(value16(line, 1)))))
}

// one KIND LENGTH N: one chunk that says it is so long, in a packet of N bytes of which the rest is 0
fn one(line: &[u8]) -> u8 {
    let [_, kind] = value16(line, 1).to_be_bytes();
    let mut buffer = [0u8; 2048];
    put8(&mut buffer, HEADER, kind);
    put16(&mut buffer, HEADER + 2, value16(line, 2));
    number_of(packets::check_shape(part(&buffer, 0, usize::from(value16(line, 3)))))
}

// What a line spells behind its verb, in a buffer from `at` on, with all that stands before it.
fn packet_in<'a>(line: &[u8], buffer: &'a mut [u8], at: usize) -> &'a [u8] {
    let n = spell(rest(line), buffer, at);
    part(buffer, 0, n)
}

// chunks BYTES, behind a header
fn shape(line: &[u8]) -> u8 {
    number_of(packets::check_shape(packet_in(line, &mut [0u8; 2048], HEADER)))
}

// many BYTES: 365 chunks of 4 bytes, all but the last COOKIE ACK
fn many(line: &[u8]) -> u8 {
    let mut buffer = [0u8; 1472];
    for at in (HEADER..1472).step_by(4) {
        put_all(&mut buffer, at, COOKIE_ACK);
    }
    spell(rest(line), &mut buffer, 1468);
    number_of(packets::check_shape(&buffer))
}

// packet BYTES: all checks of a whole packet
fn whole(line: &[u8]) -> u8 {
    number_of(packets::check_packet(packet_in(line, &mut [0u8; 2048], 0)))
}

// header BYTES
fn say_header(line: &[u8], right: &[u8]) -> usize {
    let mut buffer = [0u8; 64];
    spell(rest(line), &mut buffer, 0);
    let header = packets::read_header(&buffer);
    let a = say_named(right, 0, b"ports ", u64::from(header.source));
    let b = say_named(right, a, b" ", u64::from(header.destination));
    say_named(right, b, b" tag ", u64::from(header.tag))
}

// seals N: ports 5,000 and 10,000 and tag 0x12345678 over a COOKIE ACK that stands in a lent output of 20 bytes: the answer, and what stands there
fn say_sealed(line: &[u8], right: &[u8]) -> usize {
    let mut out = [0xeeu8; 20];
    put_all(&mut out, HEADER, COOKIE_ACK);
    let header = Header {
        source: 5000,
        destination: 10000,
        tag: 0x12345678,
    };
    let n = packets::seal(&mut out, usize::from(value16(line, 1)), header);
    let a = say_number(right, 0, n as u64);
    say_packet(right, a, &out)
}

fn say_done(line: &[u8], right: &[u8]) -> usize {
    match first(line) {
        b"header" => say_header(line, right),
        b"seals" => say_sealed(line, right),
        b"size" => say_answer(right, 0, size(line)),
        b"one" => say_answer(right, 0, one(line)),
        b"chunks" => say_answer(right, 0, shape(line)),
        b"many" => say_answer(right, 0, many(line)),
        b"packet" => say_answer(right, 0, whole(line)),
        _ => say_unread(right),
    }
}

fn turn(line: &[u8]) {
    if is_heading(line) {
        text(line);
        text(b"\n");
        return;
    }
    let event = deed(line);
    let right = should(line);
    text(event);
    text(b": ");
    compare(right, say_done(event, right));
}

fn run(script: &[u8]) {
    for line in script.split_inclusive(|byte| *byte == b'\n') {
        turn(line_at(line, 0));
    }
}

fn main() {
    let mut script = [0u8; 65536];
    let n = io::read_full(STANDARD_INPUT, &mut script);
    run(&script[..n]);
}
