// Why the host aborts.
ghost use Rattle.std.specs.Prelude.{◌≡◌};
ghost use Rattle.kept.specs.Cause.{reason_of};

use calls::Reason;
use numbers::Tsn;

#[tactic(auto, unfolding(crate::specs::Cause::reason_of))]
pub fn reason_of(cause: u8, tsn: u32) -> Reason
    ensures { result ≡ reason_of cause tsn }
{
    match cause {
        9 => Reason::NoData(Tsn(tsn)),
        13 => Reason::Violation,
        _ => Reason::User,
    }
}
