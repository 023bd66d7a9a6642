// The head as a host keeps it, in the layout of C.
ghost use Rattle.std.specs.Prelude.{◌≡◌};
ghost use Rattle.kept.specs.Kept.{state_number, tries_of, state_of, is_state, has_junk, is_named, unpacked, packed};

use crate::flags;
use crate::parts::{KeptKeeping, KeptSender};
use association::Ends;
use flat::Head;
use numbers::Keeping;
use sender::Sender;
use states::State;

// The state is two numbers: which it is, and its count of tries, 0 where it has none.
#[repr(C)]
#[derive(Clone, Copy)]
pub struct Kept {
    pub state: u8,
    pub tries: u8,
    pub cookie_len: u16,
    pub ends: Ends,
    pub keeping: KeptKeeping,
    pub sender: KeptSender,
}

// The two numbers of a state.
fn numbers_of(s: State) -> (u8, u8)
    ensures { result ≡ (state_number s, tries_of s) }
{
    match s {
        State::Closed => (0, 0),
        State::CookieWait(n) => (1, n),
        State::CookieEchoed(n) => (2, n),
        State::Established => (3, 0),
        State::ShutdownPending => (4, 0),
        State::ShutdownSent(n) => (5, n),
        State::ShutdownReceived => (6, 0),
        State::ShutdownAckSent(n) => (7, n),
    }
}

// Total, and no `Option`: `unpack` promises `unpacked` of any two numbers.
fn state_of(number: u8, tries: u8) -> State
    ensures { result ≡ state_of number tries }
{
    match number {
        1 => State::CookieWait(tries),
        2 => State::CookieEchoed(tries),
        3 => State::Established,
        4 => State::ShutdownPending,
        5 => State::ShutdownSent(tries),
        6 => State::ShutdownReceived,
        7 => State::ShutdownAckSent(tries),
        _ => State::Closed,
    }
}

// Whether the two numbers are those of a state.
#[tactic(auto, unfolding(crate::specs::Kept::is_state))]
fn is_state(number: u8, tries: u8) -> bool
    ensures { result ≡ is_state number tries }
{
    numbers_of(state_of(number, tries)) == (number, tries)
}

// Whether one of its flags is neither 0 nor 1.
#[tactic(auto, unfolding(crate::specs::Kept::has_junk))]
fn has_junk(k: Kept) -> bool
    ensures { result ≡ has_junk k }
{
    flags::is_junk(k.sender.path.running)
        || flags::is_junk(k.sender.path.clock.sampled)
        || flags::has_junk(&k.keeping.come)
}

// Whether the two numbers name a state, and every flag yes or no.
#[tactic(auto, unfolding(crate::specs::Kept::is_named))]
pub fn is_named(k: Kept) -> bool
    ensures { result ≡ is_named k }
{
    is_state(k.state, k.tries) && !has_junk(k)
}

#[tactic(auto, unfolding(crate::specs::Kept::unpacked))]
pub fn unpack(k: Kept) -> Head
    ensures { result ≡ unpacked k }
{
    Head {
        state: state_of(k.state, k.tries),
        ends: k.ends,
        keeping: Keeping::from(k.keeping),
        sender: Sender::from(k.sender),
        cookie_len: k.cookie_len,
    }
}

#[tactic(auto, unfolding(crate::specs::Kept::packed))]
pub fn pack(h: Head) -> Kept
    ensures { result ≡ packed h }
{
    let (state, tries) = numbers_of(h.state);
    Kept {
        state,
        tries,
        cookie_len: h.cookie_len,
        ends: h.ends,
        keeping: KeptKeeping::from(h.keeping),
        sender: KeptSender::from(h.sender),
    }
}
