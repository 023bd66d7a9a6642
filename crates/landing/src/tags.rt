// Ports and verification tag (number 4) of a packet for a head.
ghost use Rattle.std.specs.Prelude.{◌≡◌};
ghost use Rattle.numbers.specs.Refusal.{answered_number};
ghost use Rattle.flat.specs.Shown.{bare};
ghost use Rattle.arriving.specs.Tags.{head_number};

use arriving::tags;
use flat::Head;
use numbers::Refusal;
use packets::Header;
use steps::Echoed;

// 4. `s` is the packet from its first chunk on.
#[tactic(auto, unfolding(arriving::specs::Tags::head_number))]
pub(crate) fn check_head(head: Head, h: Header, s: &[u8], echoed: Echoed) -> Result<(), Refusal>
    ensures { answered_number result ≡ head_number (bare head) h s.now echoed }
{
    let is_let_in = tags::are_ports(head.state, head.ends, h)
        && tags::is_tag(tags::rule_for(head.state, head.ends, s, echoed), h.tag);
    if is_let_in {
        Ok(())
    } else {
        Err(Refusal::Head)
    }
}
