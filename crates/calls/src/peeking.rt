// What the host must know of a packet before it arrives.
ghost use Rattle.std.specs.Prelude.{◌≡◌};
ghost use Rattle.calls.specs.Peek.{told_by_number, peeked_in, peeked};

use chunks::init::Init;
use chunks::types;
use numbers::Refusal;

// An INIT, with the port that it came from and the options that it offers, or a COOKIE ECHO, whose cookie stands in the packet at an offset and has a length.
#[derive(Clone, Copy)]
pub enum Peeked {
    Init(Init, u16, u8),
    Echo(usize, usize),
}

// `s` is the packet from its first chunk on.
#[tactic(auto, unfolding(crate::specs::Peek::peeked_in))]
fn see(packet: &[u8], s: &[u8]) -> Option<Peeked>
    ensures { result ≡ peeked_in packet.now s.now }
{
    match octets::get8(s, 0) {
        types::INIT => {
            let source = packets::read_header(packet).source;
            Some(Peeked::Init(chunks::init::read_init(s), source, 0))
        }
        types::COOKIE_ECHO => {
            let cookie = chunks::cookie::cookie(s);
            Some(Peeked::Echo(12 + cookie.at, cookie.len))
        }
        _ => None,
    }
}

// The first of 2, 3, 5, 6 that holds, or what the first chunk is, if it is one that the host must know of.
pub fn peek(packet: &[u8]) -> Result<Option<Peeked>, Refusal>
    ensures { told_by_number result ≡ peeked packet.now }
{
    packets::check_packet(packet)?;
    Ok(see(packet, octets::part(packet, 12, packet.len())))
}
