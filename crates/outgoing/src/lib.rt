// The sending side by value, with its tables, which it lends itself: its promises are those of `sending`, and how the words stand.
#![tactic(auto)]

ghost use Rattle.std.specs.Prelude.{◌≡◌, length};
ghost use Rattle.path.specs.Sizes.{rail_sizes, sizes_of};
ghost use Rattle.numbers.specs.Profile.{rail};
ghost use Rattle.sending.specs.declared.acknowledging.Answer.{Answer};
ghost use Rattle.sending.specs.declared.cutting.Handed.{Handed};
ghost use Rattle.sending.specs.declared.expiring.Expiry.{Expiry};
ghost use Rattle.sending.specs.Sending.{fresh_sending};
ghost use Rattle.sending.specs.HandIn.{handed_in, handed_in_area};
ghost use Rattle.sending.specs.Acknowledge.{whole_sack, acknowledged_sending, shutdown_point};
ghost use Rattle.sending.specs.Expiry.{sending_expired};
ghost use Rattle.sending.specs.Choose.{packet_filled};
ghost use Rattle.sending.specs.ChoosePartsLaws.{loaded_by};
ghost use Rattle.outgoing.specs.Outgoing.{outgoing_shown, outgoing_begun, handed_to, outgoing_answered, shut_by, expired_in, packet_of};

use numbers::{Blocks, StreamId, Tsn};
use sender::Sender;
use sending::choosing::Load;

// Head, places and next SSNs.
#[derive(Clone, Copy)]
pub struct Outgoing {
    pub head: Sender,
    pub places: [u32; 1024],
    pub next: [u16; 128],
}

// The number, 0 if none; how many chunks were cut; the sending side. A number, and no `Result`, here and in the two below, since `vectors_sending` prints it.
#[derive(Clone, Copy)]
pub struct HandedIn {
    pub number: u8,
    pub chunks: usize,
    pub outgoing: Outgoing,
}

// The number, 0 if none; whether the tries were spent; the sending side.
#[derive(Clone, Copy)]
pub struct Expired {
    pub number: u8,
    pub over: bool,
    pub outgoing: Outgoing,
}

// The number, 0 if none, and the sending side.
#[derive(Clone, Copy)]
pub struct Answered {
    pub number: u8,
    pub outgoing: Outgoing,
}

// A packet, and the sending side after it.
#[derive(Clone, Copy)]
pub struct Packet {
    pub load: Load,
    pub outgoing: Outgoing,
}

impl Outgoing {
    // Nothing waits, and nothing was sent from `start` on.
    pub fn fresh(start: Tsn, advertised: u32, mode: u8) -> Outgoing
        ensures { (result ≡ outgoing_begun start advertised mode) × (outgoing_shown result ≡ fresh_sending (sizes_of mode) rail start advertised mode) }
    {
        Outgoing {
            head: Sender::fresh(start, advertised, mode),
            places: [0; 1024],
            next: [0; 128],
        }
    }
}

// A message for a stream, of which so many are agreed.
pub fn hand_in(
    mut r: Outgoing,
    area: &mut [u8],
    message: &[u8],
    stream: StreamId,
    unordered: bool,
    ppid: u32,
    streams: u16,
) -> HandedIn
    ensures { (result ≡ handed_to r (length message.now) stream unordered ppid streams)
        × (◌≡◌ {A = Handed} (record { number = result.number; chunks = result.chunks; sending = outgoing_shown result.outgoing }) (handed_in rail (outgoing_shown r) (length message.now) stream unordered ppid streams))
        × (area.new ≡ handed_in_area rail (outgoing_shown r) area.old message.now stream streams) }
{
    let answer = messages::hand_in(
        r.head,
        &mut r.places,
        area,
        message,
        stream,
        unordered,
        ppid,
        streams,
    );
    let (number, chunks) = match answer {
        Ok(chunks) => (0, chunks),
        Err(refusal) => (refusal.number(), 0),
    };
    HandedIn {
        number,
        chunks,
        outgoing: r,
    }
}

// A SACK.
pub fn acknowledge(mut r: Outgoing, point: Tsn, window: u32, blocks: Blocks) -> Answered
    ensures { (result ≡ outgoing_answered r (whole_sack point window blocks)) × (◌≡◌ {A = Answer} (record { number = result.number; sending = outgoing_shown result.outgoing }) (acknowledged_sending (sizes_of r.head.mode) (outgoing_shown r) (whole_sack point window blocks))) }
{
    let number = match acks::acknowledge(r.head, &mut r.places, point, window, blocks) {
        Ok(after) => {
            r.head = after;
            0
        }
        Err(refusal) => refusal.number(),
    };
    Answered {
        number,
        outgoing: r,
    }
}

// A SHUTDOWN's point.
pub fn shutdown_point(mut r: Outgoing, point: Tsn) -> Answered
    ensures { (result ≡ shut_by r point) × (◌≡◌ {A = Answer} (record { number = result.number; sending = outgoing_shown result.outgoing }) (shutdown_point (sizes_of r.head.mode) (outgoing_shown r) point)) }
{
    let number = match acks::shutdown_point(r.head, &mut r.places, point) {
        Ok(after) => {
            r.head = after;
            0
        }
        Err(refusal) => refusal.number(),
    };
    Answered {
        number,
        outgoing: r,
    }
}

// T3 expires.
pub fn t3(mut r: Outgoing) -> Expired
    ensures { (result ≡ expired_in r) × (◌≡◌ {A = Expiry} (record { number = result.number; over = result.over; sending = outgoing_shown result.outgoing }) (sending_expired (sizes_of r.head.mode) (outgoing_shown r))) }
{
    let (number, over) = match acks::t3(r.head, &mut r.places) {
        Ok(Some(after)) => {
            r.head = after;
            (0, false)
        }
        Ok(None) => (0, true),
        Err(refusal) => (refusal.number(), false),
    };
    Expired {
        number,
        over,
        outgoing: r,
    }
}

// What goes into the next packet.
pub fn choose(mut r: Outgoing) -> Packet
    ensures { (result ≡ packet_of r) × (loaded_by (outgoing_shown result.outgoing) result.load ≡ packet_filled rail_sizes rail (outgoing_shown r)) }
{
    let filled = choice::choose(r.head, &mut r.places, &mut r.next);
    r.head = filled.head;
    Packet {
        load: filled.load,
        outgoing: r,
    }
}
