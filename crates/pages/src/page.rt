// A line of text, written as it is put together and held against the line that should come out. Each function answers how far the two are the same.
ghost use Rattle.std.specs.Prelude.{◌≡◌, [], ◌∷◌};
ghost use Rattle.pages.specs.Reading.{astray, plus_of};
ghost use Rattle.pages.specs.Page.{is_same, said_at, letter_of, decimal_of, named_at, byte_text, spaced_at, rows_at, packet_at, answer_at};

use octets::part;

// The descriptor of the standard output.
const STANDARD_OUTPUT: i32 = 1;

// Bytes of a packet that are shown, of a longer one its first.
const SHOWN: usize = 160;

// Where a text is that is not as it should be: past the end of every line. A place and no Option: each part that is said hands it on to the next, and only
// the last is looked at.
const ASTRAY: usize = 1000000;

#[tactic(auto, unfolding(crate::specs::Reading::plus_of))]
pub fn plus(a: usize, b: usize) -> usize
    ensures { result ≡ plus_of a b }
{
    if a < ASTRAY && b < ASTRAY { a + b } else { a }
}

pub fn text(s: &[u8]) {
    io::write_all(STANDARD_OUTPUT, s);
}

#[tactic(auto, unfolding(crate::specs::Page::said_at))]
pub fn say(should: &[u8], at: usize, s: &[u8]) -> usize
    ensures { result ≡ said_at should.now at s.now }
{
    text(s);
    if same(part(should, at, s.len()), s) {
        plus(at, s.len())
    } else {
        ASTRAY
    }
}

pub fn say_number(should: &[u8], at: usize, n: u64) -> usize
    ensures { result ≡ said_at should.now at (decimal_of n) }
{
    let mut digits = [0u8; 20];
    let k = io::decimal(n, &mut digits);
    say(should, at, &digits[..k])
}

// A name, and a number behind it.
pub fn say_named(should: &[u8], at: usize, name: &[u8], n: u64) -> usize
    ensures { result ≡ named_at should.now at name.now n }
{
    let to = say(should, at, name);
    say_number(should, to, n)
}

#[tactic(auto, unfolding(crate::specs::Page::letter_of))]
fn letter(n: u8) -> u8
    ensures { result ≡ letter_of n }
{
    match n {
        0..=9 => b'0' + n,
        10..=15 => b'a' + (n - 10),
        _ => b'?',
    }
}

fn say_byte(should: &[u8], at: usize, b: u8) -> usize
    ensures { result ≡ said_at should.now at (byte_text b) }
{
    say(should, at, &[letter(b / 16), letter(b % 16)])
}

// Every fourth byte has a space before it.
#[tactic(auto, unfolding(crate::specs::Page::spaced_at))]
fn say_spaced(should: &[u8], at: usize, i: usize, b: u8) -> usize
    ensures { result ≡ spaced_at should.now at i b }
{
    let to = if i % 4 == 0 {
        say(should, at, b" ")
    } else {
        at
    };
    say_byte(should, to, b)
}

fn say_rows(should: &[u8], at: usize, s: &[u8]) -> usize
    ensures { result ≡ rows_at should.now at s.now }
{
    let mut to = at;
    for (i, b) in s.iter().enumerate() {
        to = say_spaced(should, to, i, *b);
    }
    to
}

// The rows of a packet, or of its first part and then its length.
pub fn say_packet(should: &[u8], at: usize, s: &[u8]) -> usize
    ensures { result ≡ packet_at should.now at s.now }
{
    if s.len() <= SHOWN {
        return say_rows(should, at, s);
    }
    let to = say_rows(should, at, part(s, 0, SHOWN));
    let end = say(should, to, b" .. of ");
    say_number(should, end, s.len() as u64)
}

pub fn same(s: &[u8], t: &[u8]) -> bool
    ensures { result ≡ is_same s.now t.now }
{
    s == t
}

// A number of document 01, or ok.
#[tactic(auto, unfolding(crate::specs::Page::answer_at))]
pub fn say_answer(should: &[u8], at: usize, number: u8) -> usize
    ensures { result ≡ answer_at should.now at number }
{
    if number == 0 {
        say(should, at, b"ok")
    } else {
        say_named(should, at, b"no ", u64::from(number))
    }
}

// Of a line that the program does not read: it is not as it should be.
pub fn say_unread(should: &[u8]) -> usize
    ensures { result ≡ astray }
{
    text(b"unread");
    ASTRAY
}

// What should have come, and whether it is what came.
pub fn compare(should: &[u8], end: usize) {
    text(b" | ");
    text(should);
    text(if end == should.len() {
        b" same\n"
    } else {
        b" DIFFERS\n"
    });
}
