// A message is handed in.
ghost use Rattle.std.specs.Prelude.{◌≡◌, List, ℕ};
ghost use Rattle.states.specs.declared.call.Call.TheVariants.{HandIn};
ghost use Rattle.messages.specs.MessageWords.{handing_of};
ghost use Rattle.calls.specs.Answer.{is_short_area, barred};
ghost use Rattle.flat.specs.Shown.{shown};
ghost use Rattle.asks.specs.TableMessages.{Handover, handed_over};

use crate::answer;
use calls::answer::AREA;
use flat::Head;
use numbers::{Refusal, StreamId};
use states::Call;

// A message for a stream: into how many chunks it was cut. They wait, their payloads in the lent area. The head stays; what is refused leaves places and area too.
pub fn hand_in(
    head: Head,
    held: &[u32; 512],
    places: &mut [u32; 1024],
    area: &mut [u8],
    message: &[u8],
    stream: StreamId,
    unordered: bool,
    ppid: u32,
) -> Result<usize, Refusal>
    ensures { (ns ms cs : List ℕ) → ◌≡◌ {A = Handover} (record { answer = handing_of result; places = places.new; area = area.new }) (handed_over (barred (shown head held.now ns places.old ms cs) (is_short_area area.old) HandIn) head places.old area.old message.now stream unordered ppid) }
{
    answer::permitted(head, held, places, area.len() < AREA, Call::HandIn)?;
    messages::hand_in(
        head.sender,
        places,
        area,
        message,
        stream,
        unordered,
        ppid,
        head.ends.streams_out,
    )
}
