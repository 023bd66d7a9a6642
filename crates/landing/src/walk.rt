// The chunks of a packet, one by one: each on the head and the tables that the one before left, its reply behind those before.
ghost use Rattle.std.specs.Prelude.{◌≡◌, ◌≤◌, ◌+◌, length};
ghost use Rattle.rows.specs.Lending.{standing, AreSame};
ghost use Rattle.landing.specs.Verdicts.{verdict_at};
ghost use Rattle.landing.specs.TableWalk.{head_walk_begun, walk_taken, turn_over, table_turned, table_walked_over};

use crate::verdict;
use crate::verdict::WORDS;
use arriving::Verdict;
use arriving::walk::{is_due_after, owe};
use flat::Head;
use octets::size;
use rows::{Stepped, Tables};
use steps::{Beside, Owed};

// The head so far, how many verdicts there are, how many bytes of replies are gathered, whether the rest is unread, whether a SHUTDOWN is due, and
// what the whole reply owes beside it.
#[derive(Clone, Copy)]
pub struct Walk {
    pub head: Head,
    pub count: usize,
    pub used: usize,
    pub unread: bool,
    pub due: bool,
    pub complete: Owed,
}

fn verdict_of(at: usize, d: Stepped) -> Verdict
    ensures { result ≡ verdict_at at d }
{
    Verdict::codes(at, d.fate, d.named, d.event)
}

// What became of a chunk, taken in; its verdict is the last of so many.
fn take_in(w: Walk, d: Stepped, count: usize) -> Walk
    requires { w.used + d.written ≤ 1460 }
    ensures { result ≡ walk_taken w d count }
{
    Walk {
        head: d.head,
        count,
        used: w.used + d.written,
        unread: d.unread,
        due: is_due_after(w.due, d.owed),
        complete: owe(w.complete, d.owed),
    }
}

// The chunk at the head of `s`, which begins at `at`; `space` is what is left behind the replies so far.
fn turn(
    w: Walk,
    tables: &mut Tables,
    verdicts: &mut [u32; WORDS],
    b: Beside,
    cookie: &[u8],
    at: usize,
    s: &[u8],
    space: &mut [u8],
) -> Walk
    requires { w.used + length space.old ≡ 1460 }
    ensures same { AreSame tables.old tables.new }
    ensures left { (turn_over result (standing tables.new) verdicts.new space.new
        ≡ table_turned at b cookie.now s.now (turn_over w (standing tables.old) verdicts.old space.old)) × (result.used ≤ 1460) }
{
    if w.unread {
        let count = verdict::note(verdicts, w.count, Verdict::unread(at));
        return Walk { count, ..w };
    }
    let beside = Beside {
        first: at == 12,
        ..b
    };
    let d = rows::step(w.head, tables, beside, cookie, s, space);
    let count = verdict::note(verdicts, w.count, verdict_of(at, d));
    take_in(w, d, count)
}

// All chunks of a packet. The replies stand at the head of `scratch`.
pub(crate) fn walk_over(
    head: Head,
    tables: &mut Tables,
    verdicts: &mut [u32; WORDS],
    b: Beside,
    cookie: &[u8],
    packet: &[u8],
    scratch: &mut [u8],
) -> Walk
    requires { length scratch.old ≡ 1460 }
    ensures same { AreSame tables.old tables.new }
    ensures left { (turn_over result (standing tables.new) verdicts.new scratch.new
        ≡ table_walked_over b cookie.now packet.now (turn_over (head_walk_begun head) (standing tables.old) verdicts.old scratch.old)) × (result.used ≤ 1460) }
{
    let mut w = Walk {
        head,
        count: 0,
        used: 0,
        unread: false,
        due: false,
        complete: Owed::Nothing,
    };
    let mut at = 12;
    // Stays a loop by hand: how far it goes on is told by the chunk itself, and each turn writes all that is lent.
    while at < packet.len() {
        let s = &packet[at..];
        w = turn(
            w,
            tables,
            verdicts,
            b,
            cookie,
            at,
            s,
            &mut scratch[w.used..],
        );
        at += size(s);
    }
    w
}
