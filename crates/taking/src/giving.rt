// A take: the chosen message's bytes go to the lent output, its places are freed, and its stream expects the next.
ghost use Rattle.std.specs.Prelude.{◌≡◌, ◌^◌, ◌<◌, ◌≤◌, length};
ghost use Rattle.numbers.specs.Numbering.{ring, circles};
ghost use Rattle.numbers.specs.Profile.{rail};
ghost use Rattle.octets.specs.Bytes.{laid};
ghost use Rattle.holding.specs.Taking.{length_of, payload_at, copied, took, written};
ghost use Rattle.tables.specs.HeldWords.{held_of};
ghost use Rattle.tables.specs.Ssns.{ssns_of};
ghost use Rattle.taking.specs.TakeWords.{words_emptied, ssns_advanced, words_taken, ssns_taken};

use crate::choosing;
use holding::{Answer, Held, Message};
use numbers::{Rail, Tsn};
use tables::{held, ssns};

// The bytes of the message at the places of the list.
fn length_of(words: &[u32; held::WORDS], list: &[u8]) -> usize
    requires { length list.now ≤ 128 }
    ensures { result ≡ length_of (held_of rail words.now) list.now }
{
    let mut bytes = 0;
    for &place in list {
        bytes += held::held_at(words, usize::from(place)).bytes();
    }
    bytes
}

// The payload of n bytes at a place, from `at` on.
fn copy_payload(area: &[u8], out: &mut [u8], at: usize, place: usize, n: usize)
    requires { (place ≤ 255) × (n ≤ 65535) }
    ensures { out.new ≡ laid out.old at (payload_at rail area.now place n) }
{
    let part = octets::bytes::part(area, Rail::PAYLOAD * place, n);
    octets::bytes::put_all(out, at, part);
}

// The payloads of the message at those places, one behind the other.
fn copy_out(words: &[u32; held::WORDS], list: &[u8], area: &[u8], out: &mut [u8])
    requires { length list.now ≤ 128 }
    ensures { out.new ≡ copied rail area.now (held_of rail words.now) out.old 0 list.now }
{
    let mut at = 0;
    for &place in list {
        let place = usize::from(place);
        let n = held::held_at(words, place).bytes();
        copy_payload(area, out, at, place, n);
        at += n;
    }
}

// Those places are freed.
fn empty(words: &mut [u32; held::WORDS], list: &[u8])
    ensures { words.new ≡ words_emptied rail words.old list.now }
{
    for &place in list {
        held::free_held(words, usize::from(place));
    }
}

// The stream of an ordered message expects the next number.
#[tactic(auto, unfolding(crate::specs::TakeWords::ssns_advanced))]
fn advance(next: &mut [u16; Rail::STREAMS], h: Held)
    ensures { next.new ≡ ssns_advanced (ring (2 ^ 16)) rail next.old h }
{
    if h.unordered {
        return;
    }
    let stream = usize::from(h.stream.0);
    let expected = ssns::ssn_at(next, stream);
    ssns::put_ssn(next, stream, expected.after(1));
}

// The message that comes first in take order, into the lent output.
pub fn take(
    words: &mut [u32; held::WORDS],
    next: &mut [u16; Rail::STREAMS],
    point: Tsn,
    area: &[u8],
    out: &mut [u8],
) -> Answer
    ensures { (result ≡ (took circles rail (held_of rail words.old) (ssns_of rail next.old) point.0 (length out.old)).answer) × (words.new ≡ words_taken circles rail words.old next.old point.0 (length out.old)) × (next.new ≡ ssns_taken circles rail words.old next.old point.0 (length out.old)) × (out.new ≡ written circles rail (held_of rail words.old) (ssns_of rail next.old) point.0 area.now out.old) }
{
    let mut at = [0u8; Rail::PLACES];
    let Some(best) = choosing::choose_by(words, next, point, &mut at) else {
        return Answer::Nothing;
    };
    let first = held::held_at(words, best.place);
    // The chosen run is whole.
    let count = choosing::gather(words, best.place, first, &mut at).unwrap();
    let list = &at[..count];
    let length = length_of(words, list);
    if out.len() < length {
        return Answer::Short(length);
    }
    copy_out(words, list, area, out);
    empty(words, list);
    advance(next, first);
    Answer::Taken(Message {
        length,
        stream: first.stream,
        unordered: first.unordered,
        ssn: first.ssn,
        ppid: first.ppid,
    })
}
