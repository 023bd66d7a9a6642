// Random plans over both wraps, with loss, repeats, reordering, takes and SACKs mixed: the circle receiver against a plain receiver on the line, which
// keeps one byte for each number: 0 not come, 1 held, 2 given. What differs is counted.
#![tactic(auto)]

ghost use Rattle.std.specs.Prelude.{◌≤◌};

use delivery::{Sack, Verdict};
use holding::{Answer, Chunk, Message};
use incoming::Incoming;
use numbers::{Blocks, Rail, Ssn, StreamId, Tsn};

// The descriptor of the standard output.
const STANDARD_OUTPUT: i32 = 1;

// How many numbers a plan has, and how many steps.
const NUMBERS: u32 = 512;

const STEPS: u32 = 1500;

// The first number on the line, fifty before the end of the circle.
const FIRST: u64 = 4294967246;

// The ordered messages of each stream that were taken before the plan begins.
const TAKEN: u64 = 65500;

const CIRCLE: u64 = 4294967296;

const PLACES: u32 = Rail::PLACES as u32;

// Of a number that has not come, of one that is held, and of one that was given.
const MISSING: u8 = 0;

const HELD: u8 = 1;

const GIVEN: u8 = 2;

const ROOM: usize = 24;

// What stands in an output before a take.
const BLANK: u8 = 255;

// ---- the sender: ten numbers make a message of one chunk, then of two, of three (unordered) and of four

fn chunks(i: u32) -> u32 {
    match i % 10 {
        0 => 1,
        1 => 2,
        3 => 3,
        6 => 4,
        _ => 0,
    }
}

fn ends(i: u32) -> bool {
    matches!(i % 10, 0 | 2 | 5 | 9)
}

fn unordered(i: u32) -> bool {
    matches!(i % 10, 3 | 4 | 5)
}

fn stream(i: u32) -> u16 {
    match i % 10 {
        1 | 2 => 1,
        _ => 0,
    }
}

fn ordinal(i: u32) -> u64 {
    let round = u64::from(i / 10);
    match i % 10 {
        0 => TAKEN + round + round,
        1 | 2 => TAKEN + round,
        3 | 4 | 5 => 0,
        _ => TAKEN + round + round + 1,
    }
}

// Every byte of a payload is the same.
fn byte(i: u32) -> u8 {
    (i % 251) as u8
}

fn size(i: u32) -> u32
    ensures { result ≤ 5 }
{
    1 + i % 5
}

fn tsn(i: u32) -> Tsn {
    Tsn(((FIRST + u64::from(i)) % CIRCLE) as u32)
}

fn ssn(i: u32) -> Ssn {
    Ssn((ordinal(i) % 65536) as u16)
}

fn chunk(i: u32) -> Chunk {
    Chunk {
        begin: chunks(i) != 0,
        end: ends(i),
        unordered: unordered(i),
        tsn: tsn(i),
        stream: StreamId(stream(i)),
        ssn: ssn(i),
        ppid: i,
    }
}

// ---- the line receiver

#[derive(Drop)]
struct Line {
    point: u32,
    next0: u64,
    next1: u64,
    dups: [u32; Rail::LISTED],
    listed: usize,
}

fn at(status: &[u8], i: u32) -> u8 {
    status.get(i as usize).copied().unwrap_or(0)
}

fn put(status: &mut [u8], i: u32, v: u8) {
    let k = i as usize;
    if k < status.len() {
        status[k] = v;
    }
}

// How many of the numbers below `to` are held.
fn held(status: &[u8], to: u32) -> u32 {
    let mut n: u32 = 0;
    for i in 0..to {
        if at(status, i) == HELD {
            n = n.wrapping_add(1);
        }
    }
    n
}

fn is_whole(status: &[u8], i: u32, n: u32) -> bool {
    (0..n).all(|k| at(status, i.wrapping_add(k)) == HELD)
}

impl Line {
    fn expected(&self, stream: u16) -> u64 {
        match stream {
            1 => self.next1,
            _ => self.next0,
        }
    }

    fn is_ready(&self, status: &[u8], i: u32) -> bool {
        let n = chunks(i);
        n != 0 && is_whole(status, i, n) && (unordered(i) || ordinal(i) == self.expected(stream(i)))
    }

    // The first number of the lowest message that can be taken.
    fn choose(&self, status: &[u8]) -> Option<u32> {
        (0..NUMBERS).find(|&i| self.is_ready(status, i))
    }

    // The number that a chunk is answered.
    fn judge(&self, status: &[u8], i: u32) -> u8 {
        if i < self.point || at(status, i) != MISSING {
            return 11;
        }
        let low = held(status, self.point);
        if low == PLACES && self.choose(status).is_none() {
            return 12;
        }
        if u64::from(self.point) + u64::from(PLACES) < u64::from(i) + 1 + u64::from(low) {
            return 13;
        }
        0
    }

    fn list(&mut self, i: u32) {
        let k = self.listed;
        if k < Rail::LISTED {
            self.dups[k] = i;
            self.listed = k + 1;
        }
    }

    // A chunk arrives that is answered so.
    fn arrive(&mut self, status: &mut [u8], i: u32, number: u8) {
        match number {
            11 => self.list(i),
            0 => {
                put(status, i, HELD);
                self.point = advance(status, self.point);
            }
            _ => {}
        }
    }

    fn count(&mut self, i: u32) {
        if unordered(i) {
            return;
        }
        if stream(i) == 1 {
            self.next1 = self.next1.wrapping_add(1);
        } else {
            self.next0 = self.next0.wrapping_add(1);
        }
    }

    // A take of the message that begins with number i, into so many bytes.
    fn take(&mut self, status: &mut [u8], i: u32, room: u32) {
        let n = chunks(i);
        if room < length_of(i, n) {
            return;
        }
        for k in 0..n {
            put(status, i.wrapping_add(k), GIVEN);
        }
        self.count(i);
    }
}

// The first number that has not come.
fn advance(status: &[u8], point: u32) -> u32 {
    (point..NUMBERS)
        .find(|&i| at(status, i) == MISSING)
        .unwrap_or(NUMBERS)
}

fn length_of(i: u32, n: u32) -> u32 {
    let mut sum: u32 = 0;
    for k in 0..n {
        sum = sum.wrapping_add(size(i.wrapping_add(k)));
    }
    sum
}

// ---- what the line receiver's SACK says

fn is_come(status: &[u8], point: u32, offset: u16) -> bool {
    u32::from(offset) < PLACES && at(status, point.wrapping_add(u32::from(offset))) != MISSING
}

// The runs of numbers that have come, by their offsets, counted from 1.
fn runs(status: &[u8], point: u32) -> Blocks {
    let mut b = Blocks::none();
    let mut inside = false;
    for offset in 0..129 {
        let come = is_come(status, point, offset);
        let k = b.count;
        if k < Rail::BLOCKS && come && !inside {
            b.starts[k] = offset + 1;
        }
        if k < Rail::BLOCKS && inside && !come {
            b.ends[k] = offset;
            b.count = k + 1;
        }
        inside = come;
    }
    b
}

fn same_blocks(a: &Blocks, b: &Blocks) -> bool {
    a.starts == b.starts && a.ends == b.ends && a.count == b.count
}

// The numbers that are listed, and 0 behind them.
fn same_dups(l: &Line, dups: &[Tsn; Rail::LISTED]) -> bool {
    for (k, dup) in dups.iter().enumerate() {
        let should = if k < l.listed { tsn(l.dups[k]).0 } else { 0 };
        if dup.0 != should {
            return false;
        }
    }
    true
}

fn same_sack(status: &[u8], l: &Line, s: &Sack) -> bool {
    u64::from(s.point.0) == (FIRST + u64::from(l.point) - 1) % CIRCLE
        && u64::from(s.window) + 512 * u64::from(held(status, NUMBERS)) == 65536
        && s.listed == l.listed
        && same_dups(l, &s.dups)
        && same_blocks(&runs(status, l.point), &s.blocks)
}

// ---- the answers, one against the other

fn number_of(v: Verdict) -> u8 {
    match v {
        Verdict::Kept => 0,
        Verdict::Empty => 9,
        Verdict::Long => 10,
        Verdict::Opposite => 24,
        Verdict::Duplicate => 11,
        Verdict::Wedged => 12,
        Verdict::Far => 13,
        Verdict::Stray => 14,
        Verdict::Clashing => 21,
    }
}

fn same_bytes(out: &[u8], from: u32, n: u32, b: u8) -> bool {
    (0..n).all(|k| at(out, from.wrapping_add(k)) == b)
}

// The message's bytes stand first, and the rest of the output is as it was.
fn same_message(out: &[u8], i: u32, n: u32) -> bool {
    let mut from: u32 = 0;
    for k in 0..n {
        let j = i.wrapping_add(k);
        if !same_bytes(out, from, size(j), byte(j)) {
            return false;
        }
        from = from.wrapping_add(size(j));
    }
    at(out, from) == BLANK
}

fn same_told(m: &Message, i: u32) -> bool {
    m.length as u64 == u64::from(length_of(i, chunks(i)))
        && m.stream.0 == stream(i)
        && m.unordered == unordered(i)
        && m.ssn.0 == ssn(i).0
        && m.ppid == i
}

// A take that finds nothing, or too little room, leaves the output as it was.
fn is_untouched(out: &[u8; ROOM]) -> bool {
    *out == [BLANK; ROOM]
}

// The answer to a take into `room` bytes, where the line receiver's lowest message begins with number i.
fn same_take(a: &Answer, out: &[u8; ROOM], i: Option<u32>, room: u32) -> bool {
    let Some(i) = i else {
        return matches!(a, Answer::Nothing) && is_untouched(out);
    };
    let need = length_of(i, chunks(i));
    match a {
        Answer::Nothing => false,
        Answer::Short(n) => *n as u64 == u64::from(need) && room < need && is_untouched(out),
        Answer::Taken(m) => need <= room && same_told(m, i) && same_message(out, i, chunks(i)),
    }
}

// ---- a step of the plan

// The circle receiver and the line receiver with what each keeps, how many answers differ, and the numbers that were answered.
#[derive(Drop)]
struct Both {
    incoming: Incoming,
    line: Line,
    differ: u32,
    seen: [bool; 32],
}

fn number_taken(a: &Answer) -> u8 {
    match a {
        Answer::Taken(_) => 0,
        Answer::Nothing => 17,
        Answer::Short(_) => 18,
    }
}

fn capped(i: u64) -> u32 {
    if i < u64::from(NUMBERS) { i as u32 } else { 0 }
}

impl Both {
    fn fresh() -> Both {
        let mut incoming = Incoming::fresh(tsn(0));
        incoming.next[0] = (TAKEN % 65536) as u16;
        incoming.next[1] = (TAKEN % 65536) as u16;
        Both {
            incoming,
            line: Line {
                point: 0,
                next0: TAKEN,
                next1: TAKEN,
                dups: [0; Rail::LISTED],
                listed: 0,
            },
            differ: 0,
            seen: [false; 32],
        }
    }

    // The number was answered.
    fn note(&mut self, number: u8) {
        let k = usize::from(number);
        if k < 32 {
            self.seen[k] = true;
        }
    }

    fn tally(&mut self, same: bool) {
        if !same {
            self.differ = self.differ.wrapping_add(1);
        }
    }

    fn arrive(&mut self, area: &mut [u8], status: &mut [u8], i: u32) {
        let payload = [byte(i); 5];
        let n = size(i) as usize;
        let came = incoming::arrive(self.incoming, area, chunk(i), &payload[..n], 2);
        self.incoming = came.incoming;
        let number = number_of(came.verdict);
        let should = self.line.judge(status, i);
        self.line.arrive(status, i, should);
        self.tally(number == should);
        self.note(number);
    }

    fn take(&mut self, area: &[u8], status: &mut [u8], room: usize)
        requires { room ≤ 24 }
    {
        let mut out = [BLANK; ROOM];
        let took = incoming::take(self.incoming, area, &mut out[..room]);
        self.incoming = took.incoming;
        let first = self.line.choose(status);
        let same = same_take(&took.answer, &out, first, room as u32);
        if let Some(i) = first {
            self.line.take(status, i, room as u32);
        }
        self.tally(same);
        self.note(number_taken(&took.answer));
    }

    fn sack(&mut self, status: &[u8]) {
        let told = incoming::sack(self.incoming);
        self.incoming = told.incoming;
        let same = same_sack(status, &self.line, &told.sack);
        self.line.listed = 0;
        self.tally(same);
    }

    // One event, as the number x says: a chunk that arrives, a take into 3 bytes or into all, a SACK.
    fn step(&mut self, area: &mut [u8], status: &mut [u8], x: u64) {
        match x % 16 {
            11 => self.take(area, status, 3),
            12 => self.sack(status),
            13..=15 => self.take(area, status, ROOM),
            kind => {
                let i = arriving(self.line.point, kind, x / 16);
                self.arrive(area, status, i);
            }
        }
    }
}

fn random(x: u64) -> u64 {
    let a = x ^ (x << 13);
    let b = a ^ (a >> 7);
    b ^ (b << 17)
}

// The number that arrives: near the point, up to 150 ahead, any before it.
fn arriving(point: u32, kind: u64, y: u64) -> u32 {
    let p = u64::from(point);
    match kind {
        0..7 => capped(p + y % 6),
        7..10 => capped(p + y % 150),
        _ => capped(y % (p + 1)),
    }
}

fn text(s: &[u8]) {
    io::write_all(STANDARD_OUTPUT, s);
}

fn said(name: &[u8], yes: bool) {
    text(name);
    text(if yes { b" yes\n" } else { b" no\n" });
}

// The numbers that were answered.
fn print_seen(seen: &[bool; 32]) {
    for (number, is_seen) in seen.iter().enumerate() {
        if *is_seen {
            text(b" ");
            io::print_decimal(STANDARD_OUTPUT, number as u64);
        }
    }
}

fn run(seed: u64) -> Both {
    let mut area = [0u8; Rail::AREA];
    let mut status = [MISSING; NUMBERS as usize];
    let mut both = Both::fresh();
    let mut x = seed;
    for _ in 0..STEPS {
        x = random(x);
        both.step(&mut area, &mut status, x);
    }
    both
}

fn plan(seed: u64) {
    let both = run(seed);
    text(b"plan ");
    io::print_decimal(STANDARD_OUTPUT, seed);
    text(b": differences ");
    io::print_decimal(STANDARD_OUTPUT, u64::from(both.differ));
    text(b" | 0\n  answered:");
    print_seen(&both.seen);
    text(b" | 0 11 13 17 18\n");
    said(b"  past the end of the TSNs:", 50 < both.line.point);
    said(b"  past the end of the SSNs:", 65536 < both.line.next0);
}

fn main() {
    plan(1);
    plan(88172645463325252);
    plan(7046029254386353131);
}
