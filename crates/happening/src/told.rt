// What the host is told of an event, whichever it was.
ghost use Rattle.std.specs.Prelude.{◌≡◌, false, Ok};
ghost use Rattle.calls.specs.Messages.{no_message};
ghost use Rattle.flat.specs.declared.head.Head.{Head};
ghost use Rattle.messages.specs.MessageWords.{handing_of};
ghost use Rattle.asks.specs.TableMessages.{message_reply_of};
ghost use Rattle.asks.specs.TableTransmit.{packet_reply_of};
ghost use Rattle.asks.specs.TableAcknowledging.{sack_reply_of};
ghost use Rattle.numbers.specs.Refusal.{refusal_number};
ghost use Rattle.landing.specs.Landing.{landing_done};
ghost use Rattle.happening.specs.TableTold.{told_plainly, of_handed, told_of_transmitted, told_of_sack, told_of_delivered, of_landed};

use asks::{Acknowledged, Transmitted, Undelivered};
use calls::acknowledging::no_sack;
use chunks::sack::Sack;
use events::told::Went;
use flat::Association;
use holding::taking::Message;
use landing::Landed;
use numbers::{Refusal, Ssn, StreamId, Tsn};

// The number, 0 if none; the bytes of the packet that was written, of a message handed in its chunks, of a take the bytes of its message, or those
// needed; whether an expiry closed the association; then what one event alone tells, of a packet that arrived how many verdicts there are.
// Kept as it is: one record for every event; its number, length and flag are those of the definition `told_plainly`.
#[derive(Clone, Copy)]
pub struct Told {
    pub number: u8,
    pub length: usize,
    pub over: bool,
    pub went: Went,
    pub sack: Sack,
    pub message: Message,
    pub count: usize,
}

#[derive(Clone, Copy)]
pub struct Ran {
    pub told: Told,
    pub association: Association,
}

fn no_message() -> Message
    ensures { result ≡ no_message 0 }
{
    Message {
        length: 0,
        stream: StreamId(0),
        unordered: false,
        ssn: Ssn(0),
        ppid: 0,
    }
}

pub(crate) fn plain(number: u8, length: usize, over: bool) -> Told
    ensures { result ≡ told_plainly number length over }
{
    Told {
        number,
        length,
        over,
        went: Went {
            resent: false,
            first: Tsn(0),
            last: Tsn(0),
        },
        sack: no_sack(),
        message: no_message(),
        count: 0,
    }
}

pub(crate) fn refused(refusal: Refusal) -> Told
    ensures { result ≡ told_plainly (refusal_number refusal) 0 false }
{
    plain(refusal.number(), 0, false)
}

pub(crate) fn of_handed(answer: Result<usize, Refusal>) -> Told
    ensures { result ≡ of_handed (handing_of answer) }
{
    match answer {
        Ok(chunks) => plain(0, chunks, false),
        Err(refusal) => refused(refusal),
    }
}

pub(crate) fn of_transmitted(t: Transmitted) -> Told
    ensures { (head : Head) → result ≡ told_of_transmitted (packet_reply_of head (Ok t)) }
{
    let mut told = plain(0, t.length, false);
    told.went = Went {
        resent: t.resent,
        first: t.first,
        last: t.last,
    };
    told
}

pub(crate) fn of_sack(a: Acknowledged) -> Told
    ensures { (head : Head) → result ≡ told_of_sack (sack_reply_of head (Ok a)) }
{
    let mut told = plain(0, a.length, false);
    told.sack = a.sack;
    told
}

pub(crate) fn of_delivered(answer: Result<Message, Undelivered>) -> Told
    ensures { result ≡ told_of_delivered (message_reply_of answer) }
{
    match answer {
        Ok(message) => {
            let mut told = plain(0, message.length, false);
            told.message = message;
            told
        }
        Err(u) => {
            let mut told = plain(u.refusal.number(), u.needed, false);
            told.message.length = u.needed;
            told
        }
    }
}

pub(crate) fn of_landed(r: Landed) -> Told
    ensures { result ≡ of_landed (landing_done r) }
{
    let mut told = plain(0, r.length, false);
    told.count = r.count;
    told
}
