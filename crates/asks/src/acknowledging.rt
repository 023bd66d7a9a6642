// A SACK goes out.
ghost use Rattle.std.specs.Prelude.{◌≡◌, List, ℕ, ◌≤◌, length};
ghost use Rattle.numbers.specs.Profile.{rail};
ghost use Rattle.chunks.specs.SackChunk.{sack_bytes};
ghost use Rattle.calls.specs.Packet.{to_peer, Sent};
ghost use Rattle.calls.specs.Acknowledging.{sack_values, acknowledged_call, acknowledged_out};
ghost use Rattle.flat.specs.Shown.{shown};
ghost use Rattle.asks.specs.TableAnswer.{head_with_keeping};
ghost use Rattle.asks.specs.TableAcknowledging.{sack_reply_of, acknowledged_in};

use crate::{answer, packet};
use association::Ends;
use calls::answer::OUTPUT;
use chunks::sack::Sack;
use flat::Head;
use numbers::{Keeping, Refusal};
use states::Call;

// The bytes of the packet; what it says; the head.
#[derive(Clone, Copy)]
pub struct Acknowledged {
    pub length: usize,
    pub sack: Sack,
    pub head: Head,
}

// Not a `From`: neither type is of this crate.
fn chunk_of(k: delivery::Sack) -> Sack
    ensures { result ≡ sack_values k }
{
    let dups = k.dups;
    Sack {
        point: k.point,
        window: k.window,
        blocks: k.blocks,
        dups,
        listed: k.listed,
    }
}

fn with_keeping(mut head: Head, k: Keeping) -> Head
    ensures { result ≡ head_with_keeping head k }
{
    head.keeping = k;
    head
}

fn send_sack(e: Ends, k: Sack, out: &mut [u8]) -> usize
    requires { 12 ≤ length out.old }
    ensures { Sent (to_peer e) (sack_bytes rail k) out.old result out.new }
{
    let h = packet::to_peer(e);
    let n = chunks::sack::write_sack(&mut out[12..], k);
    packets::seal(out, 12 + n, h)
}

// What has come is told to the peer: the values, and the packet. The duplicates listed are told with it. What is refused leaves the head as it was.
pub fn sack(
    head: Head,
    held: &[u32; 512],
    places: &[u32; 1024],
    out: &mut [u8],
) -> Result<Acknowledged, Refusal>
    ensures { (ns ms cs : List ℕ) → (acknowledged_in (sack_reply_of head result) held.now ns places.now ms cs ≡ acknowledged_call (shown head held.now ns places.now ms cs) out.old) × (out.new ≡ acknowledged_out (shown head held.now ns places.now ms cs) out.old) }
{
    answer::permitted(head, held, places, out.len() < OUTPUT, Call::Acknowledge)?;
    let said = reception::acknowledging::sack(head.keeping, held);
    let sack = chunk_of(said.sack);
    let length = send_sack(head.ends, sack, out);
    Ok(Acknowledged {
        length,
        sack,
        head: with_keeping(head, said.keeping),
    })
}
