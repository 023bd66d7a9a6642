// Chunks in bytes, worked out by hand from the figures of RFC 9260 section 3.3, written and read. The input has one on each line, and behind a colon what should
// come of it; the output repeats the line, with what came of it before what should, and whether they are the same. Of a written chunk that is its length, its
// bytes, and four bytes behind them, which stay as they were (ee).
#![tactic(auto)]

use chunks::cause::Cause;
use chunks::data::Data;
use chunks::frame::Part;
use chunks::init::Init;
use chunks::kind::{Handling, Kind};
use chunks::sack::{Block, Sack};
use numbers::{Blocks, Rail, Ssn, StreamId, Tsn};
use octets::{part, put_all};
use pages::page::{compare, plus, say, say_named, say_number, say_packet, say_unread, text};
use pages::reading::{
    deed, first, is_heading, line_at, rest, should, spell, value16, value32, word,
};
use parameters::parameter::Parameter;

// The descriptor of the standard input.
const STANDARD_INPUT: i32 = 0;

const ROOM: usize = 1024;

// What a text spells, in a buffer.
fn spelt<'a>(s: &[u8], buffer: &'a mut [u8]) -> &'a [u8] {
    let n = spell(s, buffer, 0);
    part(buffer, 0, n)
}

// ---- what is written

// What a writer answered and left.
fn say_wrote(right: &[u8], out: &[u8; ROOM], n: usize) -> usize {
    let a = say_number(right, 0, n as u64);
    say_packet(right, a, part(out, 0, plus(n, 4)))
}

fn data_of(line: &[u8]) -> Data {
    let flags = word(line, 1);
    Data {
        tsn: Tsn(value32(line, 2)),
        stream: StreamId(value16(line, 3)),
        ssn: Ssn(value16(line, 4)),
        ppid: value32(line, 5),
        begin: flags.contains(&b'B'),
        end: flags.contains(&b'E'),
        unordered: flags.contains(&b'U'),
    }
}

// data FLAGS TSN STREAM SSN PPID PAYLOAD
fn write_data(line: &[u8], out: &mut [u8; ROOM]) -> usize {
    let mut payload = [0u8; ROOM];
    chunks::data::write_data(out, data_of(line), spelt(word(line, 6), &mut payload))
}

// TAG WINDOW OUT IN TSN
fn init_of(line: &[u8]) -> Init {
    Init {
        tag: value32(line, 1),
        window: value32(line, 2),
        outs: value16(line, 3),
        ins: value16(line, 4),
        tsn: Tsn(value32(line, 5)),
    }
}

// init-ack TAG WINDOW OUT IN TSN COOKIE CHUNK: the answer to the INIT that the chunk is
fn write_init_ack(line: &[u8], out: &mut [u8; ROOM]) -> usize {
    let mut cookie = [0u8; ROOM];
    let mut asked = [0u8; ROOM];
    let cookie = spelt(word(line, 6), &mut cookie);
    let asked = spelt(word(line, 7), &mut asked);
    parameters::report::write_init_ack(out, init_of(line), cookie, asked)
}

// sack COUNT LISTED: RFC 9260's own example: cumulative TSN 12, window 4660, blocks 2 to 3 and 5 to 5; 19 is the duplicate
fn sack_of(line: &[u8]) -> Sack {
    let mut blocks = Blocks::none();
    blocks.count = usize::from(value16(line, 1));
    blocks.starts[0] = 2;
    blocks.ends[0] = 3;
    blocks.starts[1] = 5;
    blocks.ends[1] = 5;
    Sack {
        point: Tsn(12),
        window: 4660,
        blocks,
        dups: [Tsn(19); Rail::LISTED],
        listed: usize::from(value16(line, 2)),
    }
}

// A cause by its number, with its value.
fn cause_of(number: u16, value: u32) -> Cause {
    match number {
        1 => Cause::InvalidStream(StreamId((value & 0xffff) as u16)),
        3 => Cause::StaleCookie(value),
        9 => Cause::NoUserData(Tsn(value)),
        12 => Cause::UserAbort,
        _ => Cause::ProtocolViolation,
    }
}

// abort T CAUSE VALUE
fn write_abort(line: &[u8], out: &mut [u8; ROOM]) -> usize {
    let cause = cause_of(value16(line, 2), value32(line, 3));
    chunks::cause::write_abort(out, value16(line, 1) == 1, cause)
}

// error CAUSE VALUE
fn write_error(line: &[u8], out: &mut [u8; ROOM]) -> usize {
    chunks::cause::write_error(out, cause_of(value16(line, 1), value32(line, 2)))
}

// heartbeat BYTES: eight
fn write_heartbeat(s: &[u8], out: &mut [u8; ROOM]) -> usize {
    let mut value = [0u8; 8];
    put_all(&mut value, 0, s);
    chunks::heartbeat::write_heartbeat(out, value)
}

// short: COOKIE ACK in 3 bytes
fn write_short(out: &mut [u8; ROOM]) -> usize {
    let mut small = [0xeeu8; 3];
    let n = chunks::cookie::write_cookie_ack(&mut small);
    put_all(out, 0, &small);
    n
}

// What `writes` has behind it; `s` is what the words behind the chunk's name spell.
fn write_chunk(line: &[u8], s: &[u8], out: &mut [u8; ROOM]) -> usize {
    match first(line) {
        b"shutdown" => chunks::shutdown::write_shutdown(out, Tsn(value32(line, 1))),
        b"shutdown-ack" => chunks::shutdown::write_shutdown_ack(out),
        b"shutdown-complete" => {
            chunks::shutdown::write_shutdown_complete(out, value16(line, 1) == 1)
        }
        b"cookie-ack" => chunks::cookie::write_cookie_ack(out),
        b"short" => write_short(out),
        b"heartbeat" => write_heartbeat(s, out),
        b"heartbeat-ack" => chunks::heartbeat::write_heartbeat_ack(out, s),
        b"abort-address" => chunks::cause::write_abort_address(out, false, s),
        b"error-chunk" => chunks::cause::write_error_chunk(out, s),
        b"error-parameters" => parameters::report::write_error_parameters(out, s),
        b"cookie-echo" => chunks::cookie::write_cookie_echo(out, s),
        b"data" => write_data(line, out),
        b"init" => chunks::init::write_init(out, init_of(line)),
        b"init-ack" => write_init_ack(line, out),
        b"sack" => chunks::sack::write_sack(out, sack_of(line)),
        b"abort" => write_abort(line, out),
        _ => write_error(line, out),
    }
}

// writes CHUNK
fn say_written(line: &[u8], right: &[u8]) -> usize {
    let mut out = [0xeeu8; ROOM];
    let mut buffer = [0u8; ROOM];
    let n = write_chunk(line, spelt(rest(line), &mut buffer), &mut out);
    say_wrote(right, &out, n)
}

// ---- what is read

fn say_part(right: &[u8], at: usize, name: &[u8], p: Part) -> usize {
    let a = say_named(right, at, name, p.at as u64);
    say_named(right, a, b" of ", p.len as u64)
}

fn say_flags(right: &[u8], at: usize, d: Data) -> usize {
    let a = say_named(right, at, b" U ", u64::from(d.unordered));
    let b = say_named(right, a, b" B ", u64::from(d.begin));
    say_named(right, b, b" E ", u64::from(d.end))
}

fn say_data(right: &[u8], d: Data) -> usize {
    let a = say_named(right, 0, b"TSN ", u64::from(d.tsn.0));
    let b = say_named(right, a, b" stream ", u64::from(d.stream.0));
    let c = say_named(right, b, b" SSN ", u64::from(d.ssn.0));
    let e = say_named(right, c, b" PPID ", u64::from(d.ppid));
    say_flags(right, e, d)
}

fn say_read_data(right: &[u8], s: &[u8]) -> usize {
    let a = say_data(right, chunks::data::read_data(s));
    say_part(right, a, b" payload at ", chunks::data::payload(s))
}

fn say_init(right: &[u8], v: Init) -> usize {
    let a = say_named(right, 0, b"tag ", u64::from(v.tag));
    let b = say_named(right, a, b" window ", u64::from(v.window));
    let c = say_named(right, b, b" out ", u64::from(v.outs));
    let d = say_named(right, c, b" in ", u64::from(v.ins));
    say_named(right, d, b" TSN ", u64::from(v.tsn.0))
}

fn say_read_init(right: &[u8], s: &[u8]) -> usize {
    let a = say_init(right, chunks::init::read_init(s));
    say_part(right, a, b" parameters at ", chunks::init::parameters(s))
}

fn say_read_init_ack(right: &[u8], s: &[u8]) -> usize {
    let has_host_name = parameters::parameter::has_host_name(s);
    let a = say_part(right, 0, b"cookie at ", parameters::parameter::cookie(s));
    let b = say_named(right, a, b" Host Name ", u64::from(has_host_name));
    say_part(right, b, b" at ", parameters::parameter::host_name(s))
}

fn say_block(right: &[u8], at: usize, b: Block) -> usize {
    let a = say_named(right, at, b" ", u64::from(b.start));
    say_named(right, a, b"-", u64::from(b.end))
}

// The blocks as they are listed: how many, the first, and the third, which is not there.
fn say_listed(right: &[u8], at: usize, b: &Blocks) -> usize {
    let a = say_named(right, at, b" listed ", b.count as u64);
    let c = say_named(right, a, b" ", u64::from(b.starts[0]));
    let d = say_named(right, c, b"-", u64::from(b.ends[0]));
    say_named(right, d, b" unused ", u64::from(b.starts[2]))
}

// Two blocks and a duplicate.
fn say_read_sack(right: &[u8], s: &[u8]) -> usize {
    let k = chunks::sack::read_sack(s);
    let a = say_named(right, 0, b"point ", u64::from(k.point.0));
    let b = say_named(right, a, b" window ", u64::from(k.window));
    let c = say_named(right, b, b" blocks ", u64::from(k.blocks));
    let d = say_block(right, c, chunks::sack::block_at(s, 0));
    let e = say_block(right, d, chunks::sack::block_at(s, 1));
    let f = say_named(right, e, b" duplicates ", u64::from(k.repeats));
    let g = say_named(right, f, b" ", u64::from(chunks::sack::repeat_at(s, 0).0));
    say_listed(right, g, &chunks::sack::read_blocks(s))
}

fn say_handling(right: &[u8], at: usize, h: Handling) -> usize {
    match h {
        Handling::Stop => say(right, at, b"stop"),
        Handling::StopAndReport => say(right, at, b"stop and report"),
        Handling::Skip => say(right, at, b"skip"),
        Handling::SkipAndReport => say(right, at, b"skip and report"),
    }
}

fn say_treatment(right: &[u8], at: usize, t: Option<Handling>) -> usize {
    match t {
        None => say(right, at, b"known"),
        Some(h) => say_handling(right, at, h),
    }
}

fn say_found(right: &[u8], p: Parameter) -> usize {
    let a = say_named(right, 0, b"type ", u64::from(p.kind));
    let b = say(right, a, b" ");
    let c = say_treatment(right, b, p.treatment);
    let d = say_named(right, c, b" of ", p.len as u64);
    say_named(right, d, b" next ", p.next as u64)
}

// parameter AT BYTES
fn say_parameter(line: &[u8], right: &[u8]) -> usize {
    let mut buffer = [0u8; ROOM];
    let items = spelt(rest(rest(line)), &mut buffer);
    match parameters::parameter::parameter_at(items, usize::from(value16(line, 1))) {
        Some(p) => say_found(right, p),
        None => say(right, 0, b"none"),
    }
}

// The types of RFC 9260 section 3.2.
fn number_of(k: Kind) -> u8 {
    match k {
        Kind::Data => 0,
        Kind::Init => 1,
        Kind::InitAck => 2,
        Kind::Sack => 3,
        Kind::Heartbeat => 4,
        Kind::HeartbeatAck => 5,
        Kind::Abort => 6,
        Kind::Shutdown => 7,
        Kind::ShutdownAck => 8,
        Kind::Error => 9,
        Kind::CookieEcho => 10,
        Kind::CookieAck => 11,
        Kind::ShutdownComplete => 14,
        Kind::Unknown(_) => 255,
    }
}

fn say_kind(right: &[u8], k: Kind) -> usize {
    match k {
        Kind::Unknown(h) => say_handling(right, 0, h),
        _ => say_named(right, 0, b"type ", u64::from(number_of(k))),
    }
}

// What `reads` has behind it; `s` is what the words behind the chunk's name spell.
fn say_chunk(line: &[u8], right: &[u8], s: &[u8]) -> usize {
    match first(line) {
        b"data" => say_read_data(right, s),
        b"init" => say_read_init(right, s),
        b"init-ack" => say_read_init_ack(right, s),
        b"sack" => say_read_sack(right, s),
        b"parameter" => say_parameter(line, right),
        b"info" => say_part(right, 0, b"at ", chunks::heartbeat::info(s)),
        b"cookie" => say_part(right, 0, b"at ", chunks::cookie::cookie(s)),
        b"causes" => say_part(right, 0, b"at ", chunks::cause::causes(s)),
        b"kind" => say_kind(right, chunks::kind::kind_of(s)),
        b"reflected" => say_named(right, 0, b"T ", u64::from(chunks::frame::reflected(s))),
        b"stale" => say_number(right, 0, u64::from(parameters::stale::is_stale(s))),
        b"point" => say_number(right, 0, u64::from(chunks::shutdown::point(s).0)),
        _ => say_unread(right),
    }
}

// reads CHUNK BYTES
fn say_read(line: &[u8], right: &[u8]) -> usize {
    let mut buffer = [0u8; ROOM];
    say_chunk(line, right, spelt(rest(line), &mut buffer))
}

// ---- the lines

fn say_done(line: &[u8], right: &[u8]) -> usize {
    match first(line) {
        b"writes" => say_written(rest(line), right),
        b"reads" => say_read(rest(line), right),
        _ => say_unread(right),
    }
}

fn turn(line: &[u8]) {
    if is_heading(line) {
        text(line);
        text(b"\n");
        return;
    }
    let event = deed(line);
    let right = should(line);
    text(event);
    text(b": ");
    compare(right, say_done(event, right));
}

fn run(script: &[u8]) {
    for line in script.split_inclusive(|byte| *byte == b'\n') {
        turn(line_at(line, 0));
    }
}

fn main() {
    let mut script = [0u8; 65536];
    let n = io::read_full(STANDARD_INPUT, &mut script);
    run(&script[..n]);
}
