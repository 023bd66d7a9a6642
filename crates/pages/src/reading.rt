// The words, numbers and bytes of a line.
ghost use Rattle.std.specs.Prelude.{◌/◌, ◌<◌, ◌≡◌, ltb, length, MatchOption};
ghost use Rattle.scans.specs.Scan.{pick};
ghost use Rattle.pages.specs.Reading.{sought, find_in, past_in, between_of, line_at, text_line_after, is_heading, deed_of, should_of, first_of, rest_of, past_words, text_word_of, digit_of, grown_by, text_value_in, text_value_of, value_below, joined_of, half_put, sign_put, spelt_at};

use crate::page::plus;
use octets::{get8, part, put_all, put8};

// Where the first byte from `from` on stands that is c, or that is not, or the end.
fn seek(s: &[u8], from: usize, c: u8, is: bool) -> usize
    ensures { result ≡ sought is s.now from c }
{
    for i in from..s.len() {
        if (s[i] == c) == is {
            return i;
        }
    }
    s.len()
}

pub fn find(s: &[u8], from: usize, c: u8) -> usize
    ensures { result ≡ find_in s.now from c }
{
    seek(s, from, c, true)
}

fn past(s: &[u8], from: usize, c: u8) -> usize
    ensures { result ≡ past_in s.now from c }
{
    seek(s, from, c, false)
}

// The bytes from `from` to `to`.
pub fn between(s: &[u8], from: usize, to: usize) -> &[u8]
    ensures { result.now ≡ between_of s.now from to }
{
    part(s, from, to.saturating_sub(from))
}

// The line that begins there.
pub fn line_at(s: &[u8], at: usize) -> &[u8]
    ensures { result.now ≡ line_at s.now at }
{
    between(s, at, find(s, at, b'\n'))
}

// Where the line after it begins, or the end: farther on, so that a script ends.
#[tactic(auto, unfolding(crate::specs::Reading::text_line_after))]
pub fn line_after(s: &[u8], at: usize) -> usize
    ensures { (result ≡ text_line_after s.now at) × (at < length s.now → at < result) }
{
    let end = find(s, at, b'\n');
    if at < end {
        if end < s.len() { end + 1 } else { end }
    } else if at < s.len() {
        at + 1
    } else {
        at
    }
}

// Whether a line says nothing that is done: it is empty, or begins with a -.
#[tactic(auto, unfolding(crate::specs::Reading::is_heading))]
pub fn is_heading(line: &[u8]) -> bool
    ensures { result ≡ is_heading line.now }
{
    line.is_empty() || get8(line, 0) == b'-'
}

// What a line says is done.
pub fn deed(line: &[u8]) -> &[u8]
    ensures { result.now ≡ deed_of line.now }
{
    between(line, 0, find(line, 0, b':'))
}

// And what should come of it: behind the colon and a space.
pub fn should(line: &[u8]) -> &[u8]
    ensures { result.now ≡ should_of line.now }
{
    between(line, plus(find(line, 0, b':'), 2), line.len())
}

// What follows the word at the head.
pub fn rest(s: &[u8]) -> &[u8]
    ensures { result.now ≡ rest_of s.now }
{
    let at = past(s, 0, b' ');
    let end = find(s, at, b' ');
    let next = past(s, end, b' ');
    between(s, next, s.len())
}

pub fn first(s: &[u8]) -> &[u8]
    ensures { result.now ≡ first_of s.now }
{
    let at = past(s, 0, b' ');
    let end = find(s, at, b' ');
    between(s, at, end)
}

// What follows the first k words, of which there are at most 7.
fn past_words(s: &[u8], k: usize) -> &[u8]
    ensures { result.now ≡ past_words (pick (ltb k 7) k 7) s.now }
{
    let mut left = s;
    for i in 0..k.min(7) {
        left = rest(left);
    }
    left
}

pub fn word(s: &[u8], k: usize) -> &[u8]
    ensures { result.now ≡ text_word_of s.now k }
{
    first(past_words(s, k))
}

// The number of a digit from 0 to 9 or a to f.
#[tactic(auto, unfolding(crate::specs::Reading::digit_of))]
fn digit(b: u8) -> Option<u8>
    ensures { MatchOption result (digit_of b ≡ 16) (λ d. (d ≡ digit_of b) × (d < 16)) }
{
    match b {
        b'0'..=b'9' => Some(b - b'0'),
        b'a'..=b'f' => Some(b - b'a' + 10),
        _ => None,
    }
}

// One digit more; a number past 32 bits grows no more.
#[tactic(auto, unfolding(crate::specs::Reading::grown_by))]
fn grown(n: u64, hex: bool, d: u8) -> u64
    requires { d < 16 }
    ensures { result ≡ grown_by n hex d }
{
    if u64::from(u32::MAX) < n {
        return n;
    }
    let base = if hex { 16 } else { 10 };
    n * base + u64::from(d)
}

fn value_of(s: &[u8], hex: bool) -> u64
    ensures { result ≡ text_value_in hex 0 s.now }
{
    let mut n: u64 = 0;
    for b in s {
        if let Some(d) = digit(*b) {
            n = grown(n, hex, d);
        }
    }
    n
}

// The number that the word behind k others is: with an x before it in base 16, else in base 10.
#[tactic(auto, unfolding(crate::specs::Reading::text_value_of, crate::specs::Reading::number_of))]
pub fn value(s: &[u8], k: usize) -> u64
    ensures { result ≡ text_value_of s.now k }
{
    match word(s, k) {
        [b'x', digits @ ..] => value_of(digits, true),
        digits => value_of(digits, false),
    }
}

#[tactic(auto, unfolding(crate::specs::Reading::value_below))]
pub fn value32(s: &[u8], k: usize) -> u32
    ensures { result ≡ value_below 4294967296 s.now k }
{
    u32::try_from(value(s, k)).unwrap_or(0)
}

#[tactic(auto, unfolding(crate::specs::Reading::value_below))]
pub fn value16(s: &[u8], k: usize) -> u16
    ensures { result ≡ value_below 65536 s.now k }
{
    u16::try_from(value(s, k)).unwrap_or(0)
}

// The digit d as the second half of the byte h, whose second half is 0.
#[tactic(auto, unfolding(crate::specs::Reading::joined_of))]
fn joined(h: u8, d: u8) -> u8
    requires { d < 16 }
    ensures { result ≡ joined_of h d }
{
    if h < 241 { h + d } else { h }
}

// The half byte n of `out`.
fn put_half(out: &mut [u8], n: usize, d: u8) -> usize
    requires { d < 16 }
    ensures { record { out = out.new; half = result } ≡ half_put (record { out = out.old; half = n }) d }
{
    let at = n / 2;
    let byte = if n % 2 == 0 {
        d * 16
    } else {
        joined(get8(out, at), d)
    };
    put8(out, at, byte);
    plus(n, 1)
}

// A digit is half a byte, z is 16 bytes and Z 256 bytes, all of them a; everything else is passed over.
#[tactic(auto, unfolding(crate::specs::Reading::sign_put, crate::specs::Reading::many_put))]
fn put_sign(out: &mut [u8], n: usize, c: u8) -> usize
    ensures { record { out = out.new; half = result } ≡ sign_put (record { out = out.old; half = n }) c }
{
    match c {
        b'z' => {
            put_all(out, n / 2, &[b'a'; 16]);
            plus(n, 32)
        }
        b'Z' => {
            put_all(out, n / 2, &[b'a'; 256]);
            plus(n, 512)
        }
        _ => match digit(c) {
            Some(d) => put_half(out, n, d),
            None => n,
        },
    }
}

// The bytes that a text spells, from `at` of `out` on; the answer is where they end.
pub fn spell(s: &[u8], out: &mut [u8], at: usize) -> usize
    ensures { (result ≡ (spelt_at s.now out.old at).half / 2) × (out.new ≡ (spelt_at s.now out.old at).out) }
{
    let mut n = plus(at, at);
    for c in s {
        n = put_sign(out, n, *c);
    }
    n / 2
}
