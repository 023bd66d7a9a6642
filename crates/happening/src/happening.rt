// The thin entry: what `running::run_coded` promises, over a record that is lent.
ghost use Rattle.std.specs.Prelude.{◌≡◌};
ghost use Rattle.events.specs.Event.{event_of};
ghost use Rattle.happening.specs.TableHappening.{lent_table_buffers, left_of, ran_of, table_happened};

use crate::running;
use crate::told::Told;
use flat::Association;

// One event of a record that the host lends.
pub fn happen(
    a: &mut Association,
    code: u8,
    values: &[u32],
    received: &mut [u8],
    sent: &mut [u8],
    verdicts: &mut [u32; 1460],
    input: &[u8],
    cookie: &[u8],
    out: &mut [u8],
) -> Told
    ensures { left_of (ran_of result a.new) received.new sent.new verdicts.new out.new ≡ table_happened a.old (event_of code values.now) (lent_table_buffers received.old sent.old verdicts.old input.now cookie.now out.old) }
{
    let o = running::run_coded(
        *a, code, values, received, sent, verdicts, input, cookie, out,
    );
    *a = o.association;
    o.told
}
