// A chunk of no known type.
ghost use Rattle.std.specs.Prelude.{◌≡◌, []};
ghost use Rattle.octets.specs.Writing.{wrote_bytes};
ghost use Rattle.steps.specs.Unknown.{step_passed_over, pass_unknown, tell_unknown};
ghost use Rattle.flat.specs.Shown.{bare};
ghost use Rattle.rows.specs.Stepped.{stepped_with, stepped_in};

use crate::stepped::Stepped;
use chunks::kind::Handling;
use flat::Head;
use steps::{Event, Fate};

// Passed over: nothing of the record changes.
fn passed_over(head: Head, fate: Fate, unread: bool, written: usize) -> Stepped
    ensures { result ≡ stepped_with written (step_passed_over (bare head) fate unread []) }
{
    Stepped {
        fate,
        unread,
        ..Stepped::accepted(head, Event::NoEvent, written)
    }
}

// Where no report can be sent.
pub fn pass_unknown(head: Head, h: Handling) -> Stepped
    ensures { result ≡ stepped_with 0 (pass_unknown (bare head) h) }
{
    match h {
        Handling::Stop | Handling::StopAndReport => passed_over(head, Fate::Stopped, true, 0),
        Handling::Skip | Handling::SkipAndReport => passed_over(head, Fate::Skipped, false, 0),
    }
}

pub fn tell_unknown(head: Head, h: Handling, s: &[u8], space: &mut [u8]) -> Stepped
    ensures { (result ≡ stepped_in space.old (tell_unknown (bare head) h s.now)) × (space.new ≡ wrote_bytes space.old (tell_unknown (bare head) h s.now).reply) }
{
    match h {
        Handling::Stop => passed_over(head, Fate::Stopped, true, 0),
        Handling::StopAndReport => {
            let n = chunks::cause::write_error_chunk(space, s);
            passed_over(head, Fate::StoppedAndReported, true, n)
        }
        Handling::Skip => passed_over(head, Fate::Skipped, false, 0),
        Handling::SkipAndReport => {
            let n = chunks::cause::write_error_chunk(space, s);
            passed_over(head, Fate::SkippedAndReported, false, n)
        }
    }
}
