// Ports and verification tag (number 4). The first chunk settles which tag rule holds.
ghost use Rattle.std.specs.Prelude.{◌≡◌};
ghost use Rattle.arriving.specs.Tags.{are_ports, is_reflecting, echo_rule, rule_of, is_abort, has_abort, is_stray, rule_for, is_tag};

use association::Ends;
use chunks::types;
use octets::{Test, first_item};
use packets::Header;
use states::State;
use steps::Echoed;

// Which tag a packet must carry.
#[derive(Clone, Copy)]
pub enum Rule {
    Tag(u32),
    Any,
    Never,
}

#[tactic(auto, unfolding(crate::specs::Tags::are_ports))]
pub fn are_ports(state: State, ends: Ends, h: Header) -> bool
    ensures { result ≡ are_ports state ends h }
{
    let expected = if state.is_closed() {
        h.source != 0
    } else {
        h.source == ends.peer_port
    };
    h.destination != 0 && h.destination == ends.local_port && expected
}

// ABORT and SHUTDOWN COMPLETE with the T bit.
// A type is a number as it stands in the packet (`rule_of`), since one that we do not know has no name.
fn is_reflecting(kind: u8, t: bool) -> bool
    ensures { result ≡ is_reflecting kind t }
{
    t && matches!(kind, types::ABORT | types::SHUTDOWN_COMPLETE)
}

fn echo_rule(echoed: Echoed) -> Rule
    ensures { result ≡ echo_rule echoed }
{
    match echoed {
        Echoed::Good(m) => Rule::Tag(m.my_tag),
        Echoed::Stale(_) | Echoed::Bad => Rule::Any,
    }
}

// By the type of the first chunk, its T bit, the state and the word on an echoed cookie.
#[tactic(auto, unfolding(crate::specs::Tags::rule_of))]
fn rule_of(kind: u8, t: bool, state: State, ends: Ends, echoed: Echoed) -> Rule
    ensures { result ≡ rule_of kind t state ends echoed }
{
    match kind {
        types::INIT => Rule::Tag(0),
        types::COOKIE_ECHO => echo_rule(echoed),
        _ if state.is_closed() => Rule::Never,
        _ if !is_reflecting(kind, t) => Rule::Tag(ends.my_tag),
        _ if state.knows_peer() => Rule::Tag(ends.peer_tag),
        _ => Rule::Never,
    }
}

struct IsAbort;

impl Test for IsAbort {
    ghost passes = { λ _ s. is_abort s };

    fn passes(&self, s: &[u8]) -> bool {
        octets::get8(s, 0) == types::ABORT
    }
}

// Whether a packet contains an ABORT; `s` is the packet from its first chunk on.
#[tactic(auto, unfolding(crate::specs::Tags::has_abort))]
pub fn has_abort(s: &[u8]) -> bool
    ensures { result ≡ has_abort s.now }
{
    first_item(s, 0, &IsAbort) < s.len()
}

fn is_stray(state: State, s: &[u8]) -> bool
    ensures { result ≡ is_stray state s.now }
{
    state.is_closed() && has_abort(s)
}

#[tactic(auto, unfolding(crate::specs::Tags::rule_for))]
pub fn rule_for(state: State, ends: Ends, s: &[u8], echoed: Echoed) -> Rule
    ensures { result ≡ rule_for state ends s.now echoed }
{
    if is_stray(state, s) {
        return Rule::Never;
    }
    let kind = octets::get8(s, 0);
    let t = chunks::frame::reflected(s);
    rule_of(kind, t, state, ends, echoed)
}

pub fn is_tag(rule: Rule, tag: u32) -> bool
    ensures { result ≡ is_tag rule tag }
{
    match rule {
        Rule::Tag(n) => tag == n,
        Rule::Any => true,
        Rule::Never => false,
    }
}
