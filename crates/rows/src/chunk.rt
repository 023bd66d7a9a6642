// One chunk: what the state table says, done.
ghost use Rattle.std.specs.Prelude.{◌≡◌};
ghost use Rattle.steps.specs.Steps.{row_met};
ghost use Rattle.flat.specs.Shown.{bare};
ghost use Rattle.rows.specs.Lending.{standing, AreSame, rowed_with, rowed_over};

use crate::lent::Tables;
use crate::stepped::Stepped;
use crate::{carrying, closing, opening, unknown};
use flat::Head;
use states::{Met, Row, State};
use steps::{Beside, Event, Named};

// The row of the state table that the chunk at the head of `s` meets.
fn row_met(head: Head, b: Beside, s: &[u8]) -> Row
    ensures { result ≡ row_met (bare head) b s.now }
{
    let met = Met {
        first: b.first,
        options: head.ends.options,
    };
    states::row_for(chunks::kind::kind_of(s), met, head.state)
}

// The chunk at the head of `s`; its reply goes to the head of `space`.
pub fn step(
    head: Head,
    tables: &mut Tables,
    b: Beside,
    cookie: &[u8],
    s: &[u8],
    space: &mut [u8],
) -> Stepped
    ensures same { AreSame tables.old tables.new }
    ensures left { rowed_with result (standing tables.new) space.new ≡ rowed_over b cookie.now s.now head (standing tables.old) space.old }
{
    match row_met(head, b, s) {
        Row::Refused => Stepped::refused(head, 7, Named::NoCall),
        Row::AnswerInit => opening::answer_init(head, b.lent, cookie, s, space),
        Row::TakeInitAck => opening::take_init_ack(
            head,
            tables.held,
            tables.next_in,
            tables.kept,
            s,
            space,
        ),
        Row::ReadEcho => opening::read_echo(
            head,
            tables.held,
            tables.next_in,
            tables.places,
            tables.next_out,
            tables.kept,
            b.echoed,
            b.source,
            s,
            space,
        ),
        Row::BecomeEstablished => Stepped::accepted(head.moved(State::Established), Event::Up, 0),
        Row::ReadData => carrying::read_data(head, tables.held, tables.next_in, tables.area, s),
        Row::ReadLateData => carrying::read_late_data(
            head,
            tables.held,
            tables.next_in,
            tables.area,
            s,
        ),
        Row::ReadSack => carrying::read_sack(head, tables.places, s),
        Row::ReadSackPending => carrying::read_sack_pending(head, tables.places, s),
        Row::ReadSackReceived => carrying::read_sack_received(head, tables.places, s, space),
        Row::EchoHeartbeat => carrying::echo_heartbeat(head, s, space),
        Row::ClearTries => carrying::clear_tries(head),
        Row::BecomeClosed => closing::become_closed(head),
        Row::PassError => Stepped::accepted(head, Event::NoEvent, 0),
        Row::ReadError => closing::read_error(head, s),
        Row::ReadShutdown => closing::read_shutdown(head, tables.places, s, space),
        Row::CrossShutdown => closing::cross_shutdown(head, tables.places, s, space),
        Row::RepeatShutdownAck => closing::repeat_shutdown_ack(head, tables.places, s, space),
        Row::ReflectComplete => closing::reflect_complete(head),
        Row::SendComplete => closing::send_complete(head),
        Row::BecomeComplete => closing::become_complete(head),
        Row::PassUnknown(h) => unknown::pass_unknown(head, h),
        Row::TellUnknown(h) => unknown::tell_unknown(head, h, s, space),
        Row::RepeatAck => opening::repeat_ack(head, s, space),
    }
}
