// A SACK is judged and taken in, over head and lent places; a SHUTDOWN's point works alike. T3 expires.
#![tactic(auto)]

ghost use Rattle.std.specs.Prelude.{◌≡◌, []};
ghost use Rattle.path.specs.Sizes.{sizes_of};
ghost use Rattle.numbers.specs.Profile.{rail};
ghost use Rattle.numbers.specs.Refusal.{answered_number};
ghost use Rattle.sending.specs.Acknowledge.{judged_point, limit_of, whole_sack, shut_of};
ghost use Rattle.sending.specs.Sending.{has_outstanding};
ghost use Rattle.sender.specs.Seen.{sending_shown};
ghost use Rattle.acks.specs.Acks.{accepted_head, accepted_words, acked_of, acked_head, acked_words, shut_head, shut_words, overdue_head, overdue_words, expired_of, expired_head, expired_words};

use numbers::{Blocks, Refusal, Tsn};
use places::Sack;
use sender::Sender;
use sending::acknowledging;

fn judge(s: Sender, k: Sack) -> Result<(), Refusal>
    ensures { answered_number result ≡ judged_point (sending_shown rail s [] []) k }
{
    let room = s.room();
    if s.acked.0 == k.point.0 {
        return acknowledging::judge_blocks(k.blocks, room);
    }
    acknowledging::judge_by(s.acked.judge(k.point, room), k.blocks, room)
}

// Below which offset an unacknowledged chunk gets a miss.
fn limit(s: Sender, k: Sack, highest: u32) -> u64
    ensures { result ≡ limit_of (sending_shown rail s [] []) k highest }
{
    if !s.path.running {
        return u64::from(highest);
    }
    match numbers::keeping::ahead_of(s.acked, k.point) {
        0 => u64::from(highest),
        moved => u64::from(moved) + u64::from(places::blocks::top(k.blocks)),
    }
}

fn accepted(mut s: Sender, t: &mut [u32; 1024], k: Sack) -> Sender
    ensures value { result ≡ accepted_head (sizes_of s.mode) rail s t.old k }
    ensures t_after { t.new ≡ accepted_words rail s t.old k }
{
    let answered = acknowledging::answered_by(s.path, k);
    let took = marks::taken_in(k, t, s.acked);
    let limit = limit(s, k, took.highest);
    let missing = marks::missed_all(t, s.acked, limit);
    s.path = acknowledging::path_after(
        answered,
        s.mode,
        took.newly,
        acknowledging::is_moved(s.acked, k.point),
        missing.struck,
        s.acked.after(missing.last),
        missing.left,
        k.point,
    );
    s.path.flight = missing.flight;
    s.acked = k.point;
    s.advertised = k.window;
    s
}

// What is refused leaves head and table.
fn answered(s: Sender, t: &mut [u32; 1024], k: Sack) -> Result<Sender, Refusal>
    ensures value { acked_of s result ≡ acked_head (sizes_of s.mode) rail s t.old k }
    ensures t_after { t.new ≡ acked_words rail s t.old k }
{
    judge(s, k)?;
    Ok(accepted(s, t, k))
}

// A SACK: the head after it.
pub fn acknowledge(
    s: Sender,
    t: &mut [u32; 1024],
    point: Tsn,
    window: u32,
    blocks: Blocks,
) -> Result<Sender, Refusal>
    ensures value { acked_of s result ≡ acked_head (sizes_of s.mode) rail s t.old (whole_sack point window blocks) }
    ensures t_after { t.new ≡ acked_words rail s t.old (whole_sack point window blocks) }
{
    let k = Sack {
        point,
        window,
        whole: true,
        blocks,
    };
    answered(s, t, k)
}

// A SHUTDOWN's point: window and block marks are kept, and a stale one changes nothing.
pub fn shutdown_point(s: Sender, t: &mut [u32; 1024], point: Tsn) -> Result<Sender, Refusal>
    ensures value { acked_of s result ≡ shut_head (sizes_of s.mode) rail s t.old point }
    ensures t_after { t.new ≡ shut_words rail s t.old point }
{
    let k = Sack {
        point,
        window: s.advertised,
        whole: false,
        blocks: Blocks::none(),
    };
    match judge(s, k) {
        Ok(()) => Ok(accepted(s, t, k)),
        Err(Refusal::Stale) => Ok(s),
        Err(refusal) => Err(refusal),
    }
}

fn overdue(mut s: Sender, t: &mut [u32; 1024]) -> Sender
    ensures value { result ≡ overdue_head (sizes_of s.mode) rail s t.old }
    ensures t_after { t.new ≡ overdue_words rail t.old }
{
    s.path = s.path.expired(s.mode);
    s.path.flight = marks::marked_all(t);
    s
}

fn has_outstanding(s: Sender, t: &[u32; 1024]) -> bool
    ensures { result ≡ has_outstanding (sending_shown rail s t.now []) }
{
    marks::tallied(t, s.acked).left
}

// T3 expires: the head after it, or none, where the tries were spent. What is refused leaves head and table.
pub fn t3(s: Sender, t: &mut [u32; 1024]) -> Result<Option<Sender>, Refusal>
    ensures value { expired_of s result ≡ expired_head (sizes_of s.mode) rail s t.old }
    ensures t_after { t.new ≡ expired_words (sizes_of s.mode) rail s t.old }
{
    if !has_outstanding(s, t) {
        return Err(Refusal::State);
    }
    if s.path.is_over() {
        return Ok(None);
    }
    Ok(Some(overdue(s, t)))
}
