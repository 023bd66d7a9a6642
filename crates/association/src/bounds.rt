// Number 1: the bounds of a record.
ghost use Rattle.std.specs.Prelude.{◌≡◌, List, ℕ};
ghost use Rattle.chunks.specs.CookieChunk.{is_cookie};
ghost use Rattle.association.specs.Bounds.{are_streams, are_options, are_agreed, lacks_port, lacks_tag, are_ends, are_few, is_head};

use crate::ends::Ends;
use numbers::Rail;
use states::State;

// At least one stream, and no more than the profile has.
pub fn are_streams(n: u16) -> bool
    ensures { result ≡ are_streams n }
{
    (1..=Rail::STREAMS).contains(&usize::from(n))
}

// Options that we know: there is none yet.
pub fn are_options(options: u8) -> bool
    ensures { result ≡ are_options options }
{
    options == 0
}

// What two ends can agree on: streams each way, and options.
#[tactic(auto, unfolding(crate::specs::Bounds::are_agreed))]
pub fn are_agreed(ins: u16, outs: u16, options: u8) -> bool
    ensures { result ≡ are_agreed ins outs options }
{
    are_streams(ins) && are_streams(outs) && are_options(options)
}

// Whether one of two ports is 0.
pub fn lacks_port(local: u16, peer: u16) -> bool
    ensures { result ≡ lacks_port local peer }
{
    local == 0 || peer == 0
}

// Whether a tag that is known is 0.
fn lacks_tag(known: bool, tag: u32) -> bool
    ensures { result ≡ lacks_tag known tag }
{
    known && tag == 0
}

// Both ports, our tag, the peer's where it is `known`, and what was agreed.
#[tactic(auto, unfolding(crate::specs::Bounds::are_ends))]
fn are_ends(e: Ends, known: bool) -> bool
    ensures { result ≡ are_ends e known }
{
    !lacks_port(e.local_port, e.peer_port)
        && e.my_tag != 0
        && !lacks_tag(known, e.peer_tag)
        && are_agreed(e.streams_in, e.streams_out, e.options)
}

// No more streams than the profile has: in CLOSED none need be agreed. No option that we do not know.
#[tactic(auto, unfolding(crate::specs::Bounds::are_few))]
fn are_few(e: Ends) -> bool
    ensures { result ≡ are_few e }
{
    usize::from(e.streams_in) <= Rail::STREAMS
        && usize::from(e.streams_out) <= Rail::STREAMS
        && are_options(e.options)
}

fn is_echo(len: u16) -> bool
    ensures { result ≡ is_cookie len }
{
    (1..=256).contains(&len)
}

// What a state asks of the ends, and of a cookie of so many bytes, whichever they are.
pub fn is_head(state: State, e: Ends, len: u16) -> bool
    ensures { (bytes : List ℕ) → result ≡ is_head state e (record { bytes = bytes; len = len }) }
{
    match state {
        State::Closed => are_few(e),
        State::CookieWait(_) => are_ends(e, false),
        State::CookieEchoed(_) => is_echo(len) && are_ends(e, true),
        _ => are_ends(e, true),
    }
}
