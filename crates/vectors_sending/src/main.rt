// The worked examples of sending, C12 and C13 among them. The input has a step on each line, and behind a colon what should come of it; the output repeats the
// line, with what came of it before what should, and whether they are the same. 4 streams are agreed.
#![tactic(auto)]

use numbers::{Blocks, StreamId, Tsn};
use octets::part;
use outgoing::Outgoing;
use pages::page::{compare, say_answer, say_named, say_number, say_unread, text};
use pages::reading::{deed, first, is_heading, line_at, should, value16, value32};
use path::{Clock, Control, Path};
use places::Place;
use sender::Sender;
use sending::choosing::Load;
use tables::place;

// The descriptor of the standard input.
const STANDARD_INPUT: i32 = 0;

// The sending side, and one that was put aside.
#[derive(Clone, Copy)]
struct Sides {
    present: Outgoing,
    aside: Outgoing,
}

// ---- what is done

// hands LENGTH STREAM UNORDERED PPID: the number, and its chunks
fn say_handed(r: &mut Outgoing, line: &[u8], right: &[u8]) -> usize {
    let message = [7u8; 65537];
    let mut area = [0u8; 65536];
    let handed = outgoing::hand_in(
        *r,
        &mut area,
        part(&message, 0, value32(line, 1) as usize),
        StreamId(value16(line, 2)),
        value16(line, 3) == 1,
        value32(line, 4),
        4,
    );
    *r = handed.outgoing;
    let a = say_answer(right, 0, handed.number);
    say_named(right, a, b" chunks ", handed.chunks as u64)
}

fn say_load(right: &[u8], l: &Load) -> usize {
    let a = say_number(right, 0, l.count as u64);
    let b = say_named(right, a, b" resent ", u64::from(l.resent));
    let c = say_named(right, b, b" TSN ", u64::from(l.first.0));
    say_named(right, c, b" to ", u64::from(l.last.0))
}

// sends: how many chunks, whether one is sent again, the first and the last TSN, and the flight after it
fn say_sent(r: &mut Outgoing, right: &[u8]) -> usize {
    let chosen = outgoing::choose(*r);
    *r = chosen.outgoing;
    let a = say_load(right, &chosen.load);
    say_named(right, a, b" flight ", u64::from(r.head.path.flight))
}

// COUNT START END START END, the fourth word on: so many blocks, of which two can be said
fn blocks_of(line: &[u8]) -> Blocks {
    let mut b = Blocks::none();
    b.starts[0] = value16(line, 4);
    b.ends[0] = value16(line, 5);
    b.starts[1] = value16(line, 6);
    b.ends[1] = value16(line, 7);
    b.count = usize::from(value16(line, 3));
    b
}

// acks POINT WINDOW BLOCKS: the number
fn say_acknowledged(r: &mut Outgoing, line: &[u8], right: &[u8]) -> usize {
    let a = outgoing::acknowledge(*r, Tsn(value32(line, 1)), value32(line, 2), blocks_of(line));
    *r = a.outgoing;
    say_answer(right, 0, a.number)
}

// shuts POINT: the number
fn say_shut(r: &mut Outgoing, line: &[u8], right: &[u8]) -> usize {
    let a = outgoing::shutdown_point(*r, Tsn(value32(line, 1)));
    *r = a.outgoing;
    say_answer(right, 0, a.number)
}

// t3: the number, and whether the association is over
fn say_expired(r: &mut Outgoing, right: &[u8]) -> usize {
    let expired = outgoing::t3(*r);
    *r = expired.outgoing;
    let a = say_answer(right, 0, expired.number);
    say_named(right, a, b" over ", u64::from(expired.over))
}

// ---- what is asked, which changes nothing

fn say_control(right: &[u8], at: usize, k: &Control) -> usize {
    let a = say_named(right, at, b" cwnd ", u64::from(k.cwnd));
    let b = say_named(right, a, b" ssthresh ", u64::from(k.ssthresh));
    say_named(right, b, b" partial ", u64::from(k.partial))
}

// shows
fn say_path(p: &Path, right: &[u8]) -> usize {
    let a = say_named(right, 0, b"flight ", u64::from(p.flight));
    let b = say_control(right, a, &p.control);
    say_named(right, b, b" recovery ", u64::from(p.running))
}

fn say_clock(right: &[u8], k: &Clock) -> usize {
    let a = say_named(right, 0, b"RTO ", u64::from(k.rto));
    let b = say_named(right, a, b" SRTT ", u64::from(k.srtt));
    say_named(right, b, b" RTTVAR ", u64::from(k.rttvar))
}

// clock
fn say_times(p: &Path, right: &[u8]) -> usize {
    let a = say_clock(right, &p.clock);
    say_named(right, a, b" tries ", u64::from(p.tries))
}

fn say_place(right: &[u8], p: &Place) -> usize {
    let a = say_named(right, 0, b"status ", u64::from(p.status));
    let b = say_named(right, a, b" misses ", u64::from(p.misses));
    let c = say_named(right, b, b" TSN ", u64::from(p.chunk.tsn.0));
    say_named(right, c, b" SSN ", u64::from(p.chunk.ssn.0))
}

// place I: free 0, waiting 1, in flight 2, marked 3, acknowledged by a block 4; its misses, its TSN, its SSN
fn say_placed(r: &Outgoing, line: &[u8], right: &[u8]) -> usize {
    let i = usize::from(value16(line, 1));
    say_place(right, &place::place_at(&r.places, i))
}

// bounds: 1 where the record is outside them
fn say_bounds(r: &Outgoing, right: &[u8]) -> usize {
    let is_within = sender::is_within(r.head, &r.places);
    say_answer(right, 0, u8::from(!is_within))
}

fn say_done(r: &mut Outgoing, line: &[u8], right: &[u8]) -> usize {
    match first(line) {
        b"hands" => say_handed(r, line, right),
        b"sends" => say_sent(r, right),
        b"acks" => say_acknowledged(r, line, right),
        b"shuts" => say_shut(r, line, right),
        b"t3" => say_expired(r, right),
        b"shows" => say_path(&r.head.path, right),
        b"clock" => say_times(&r.head.path, right),
        b"place" => say_placed(r, line, right),
        b"bounds" => say_bounds(r, right),
        _ => say_unread(right),
    }
}

// ---- records of a line's own making

// samples MILLISECONDS TIMES. A sample changes the clock alone: where the whole head is written back at each, many of them take ten times as long.
fn sample(head: &mut Sender, milliseconds: u32, times: u32) {
    for _ in 0..times {
        head.path.clock = head.sampled(milliseconds).path.clock;
    }
}

// control CWND SSTHRESH PARTIAL, tries N, flight N
fn prepare_path(path: &mut Path, line: &[u8]) {
    match first(line) {
        b"control" => {
            path.control = Control {
                cwnd: value32(line, 1),
                ssthresh: value32(line, 2),
                partial: value32(line, 3),
            };
        }
        b"tries" => {
            if let Ok(tries) = u8::try_from(value16(line, 1)) {
                path.tries = tries;
            }
        }
        b"flight" => path.flight = value32(line, 1),
        _ => text(b" unread"),
    }
}

// samples, doubles, next TSN, or of the path
fn prepare_head(head: &mut Sender, line: &[u8]) {
    match first(line) {
        b"samples" => sample(head, value32(line, 1), value32(line, 2)),
        b"doubles" => *head = head.doubled(),
        b"next" => head.next_tsn = Tsn(value32(line, 1)),
        _ => prepare_path(&mut head.path, line),
    }
}

// status PLACE STATUS
fn set_status(r: &mut Outgoing, line: &[u8]) {
    let i = usize::from(value16(line, 1));
    let mut p = place::place_at(&r.places, i);
    if let Ok(status) = u8::try_from(value16(line, 2)) {
        p.status = status;
    }
    place::put_place(&mut r.places, i, p);
}

// copies PLACE TO
fn copy_place(r: &mut Outgoing, line: &[u8]) {
    let p = place::place_at(&r.places, usize::from(value16(line, 1)));
    place::put_place(&mut r.places, usize::from(value16(line, 2)), p);
}

// fresh TSN WINDOW MODE: the book, 0 where none is said
fn fresh(line: &[u8]) -> Outgoing {
    let mode = u8::try_from(value16(line, 3)).unwrap_or(255);
    Outgoing::fresh(Tsn(value32(line, 1)), value32(line, 2), mode)
}

// saves, restores, or a record of the line's own making
fn prepare(sides: &mut Sides, line: &[u8]) {
    match first(line) {
        b"saves" => sides.aside = sides.present,
        b"restores" => sides.present = sides.aside,
        b"fresh" => sides.present = fresh(line),
        b"status" => set_status(&mut sides.present, line),
        b"copies" => copy_place(&mut sides.present, line),
        _ => prepare_head(&mut sides.present.head, line),
    }
}

// ---- the lines

// A line without a colon prepares a record.
fn turn(sides: &mut Sides, line: &[u8]) {
    if is_heading(line) {
        text(line);
        text(b"\n");
        return;
    }
    let event = deed(line);
    text(event);
    if event.len() == line.len() {
        prepare(sides, event);
        text(b"\n");
        return;
    }
    text(b": ");
    let right = should(line);
    compare(right, say_done(&mut sides.present, event, right));
}

fn run(script: &[u8]) {
    let present = Outgoing::fresh(Tsn(0), 0, 0);
    let mut sides = Sides {
        present,
        aside: present,
    };
    for line in script.split_inclusive(|byte| *byte == b'\n') {
        turn(&mut sides, line_at(line, 0));
    }
}

fn main() {
    let mut script = [0u8; 65536];
    let n = io::read_full(STANDARD_INPUT, &mut script);
    run(&script[..n]);
}
