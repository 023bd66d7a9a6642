// What a host in C or Rust links: each call of `face` over a head that is lent, with the promise that it has there. Only pointers and numbers cross, so one module serves
// every C ABI of 64 bits. Only a static library exports a name to C, and nothing in Rattle can rest on one. `include/oilwhisper.h` says it in C.
#![tactic(auto)]

ghost use Rattle.std.specs.Prelude.{[], ◌∷◌, ◌≡◌};
ghost use Rattle.calls.specs.Closing.{aborting, shutting};
ghost use Rattle.calls.specs.Peek.{peeked};
ghost use Rattle.calls.specs.Telling.{beating, telling_stale, telling_stream};
ghost use Rattle.face.specs.FaceAcknowledging.{said_in};
ghost use Rattle.face.specs.FaceArrival.{arrived_lent, lent_as, made_as};
ghost use Rattle.face.specs.FaceLeft.{call_told_of};
ghost use Rattle.face.specs.FaceMessages.{delivered_lent, handed_lent};
ghost use Rattle.face.specs.FaceOpening.{associated_lent, tables_lent};
ghost use Rattle.face.specs.FacePeek.{seen_number, seen_words};
ghost use Rattle.face.specs.FaceTransmit.{dispatched_lent};
ghost use Rattle.face.specs.Promises.{Acknowledges, Arrives, Associates, Closes, Expires, HandsIn, Lapses, Samples, Sends, Takes, Transmits};
ghost use Rattle.kept.specs.Cause.{reason_of};
ghost use Rattle.kept.specs.Word.{echoed_of};
ghost use Rattle.states.specs.declared.call.Call.TheVariants.{FirstTimer, SecondTimer};

use kept::Kept;

// A SACK goes out.
#[unsafe(no_mangle)]
pub extern "C" fn ow_lent_sack(
    k: &mut Kept,
    held: &[u32; 512],
    places: &[u32; 1024],
    out: &mut [u8],
    starts: &mut [u16; 64],
    ends: &mut [u16; 64],
    dups: &mut [u32; 16],
    told: &mut [usize; 5],
) -> u32
    ensures { Acknowledges k.old held.now places.now out.old (call_told_of result k.new told.new) (said_in starts.new ends.new dups.new out.new) }
{
    let served = face::acknowledging::sack(*k, held, places, out, starts, ends, dups, told);
    *k = served.kept;
    served.number
}

// A packet arrives: what is lent and `cookie` serve an INIT, the word and what the cookie was made from, its options `agreed`, a COOKIE ECHO.
#[unsafe(no_mangle)]
pub extern "C" fn ow_lent_arrive(
    k: &mut Kept,
    held: &mut [u32; 512],
    next_in: &mut [u16; 128],
    places: &mut [u32; 1024],
    next_out: &mut [u16; 128],
    kept_cookie: &mut [u8; 256],
    area: &mut [u8],
    verdicts: &mut [u32; 1460],
    packet: &[u8],
    tag: u32,
    tsn: u32,
    streams: u16,
    options: u8,
    cookie: &[u8],
    word: u8,
    my_tag: u32,
    peer_tag: u32,
    streams_in: u16,
    streams_out: u16,
    my_tsn: u32,
    peer_tsn: u32,
    window: u32,
    my_tie: u32,
    peer_tie: u32,
    agreed: u8,
    out: &mut [u8],
    told: &mut [usize; 2],
) -> u32
    ensures { Arrives k.old packet.now (lent_as tag tsn streams options) cookie.now (echoed_of word (made_as my_tag peer_tag streams_in streams_out my_tsn peer_tsn window my_tie peer_tie agreed)) (arrived_lent held.old next_in.old places.old next_out.old kept_cookie.old area.old verdicts.old out.old) (call_told_of result k.new told.new) (arrived_lent held.new next_in.new places.new next_out.new kept_cookie.new area.new verdicts.new out.new) }
{
    let served = face::arrival::arrive(
        *k,
        held,
        next_in,
        places,
        next_out,
        kept_cookie,
        area,
        verdicts,
        packet,
        tag,
        tsn,
        streams,
        options,
        cookie,
        word,
        my_tag,
        peer_tag,
        streams_in,
        streams_out,
        my_tsn,
        peer_tsn,
        window,
        my_tie,
        peer_tie,
        agreed,
        out,
        told,
    );
    *k = served.kept;
    served.number
}

// No more messages.
#[unsafe(no_mangle)]
pub extern "C" fn ow_lent_shutdown(
    k: &mut Kept,
    held: &[u32; 512],
    places: &[u32; 1024],
    out: &mut [u8],
    told: &mut [usize; 2],
) -> u32
    ensures { Sends shutting k.old held.now places.now out.old (call_told_of result k.new told.new) out.new }
{
    let served = face::closing::shutdown(*k, held, places, out, told);
    *k = served.kept;
    served.number
}

// Over at once.
#[unsafe(no_mangle)]
pub extern "C" fn ow_lent_abort(
    k: &mut Kept,
    held: &[u32; 512],
    places: &[u32; 1024],
    cause: u8,
    tsn: u32,
    out: &mut [u8],
    told: &mut [usize; 2],
) -> u32
    ensures { Sends (λ a. aborting a (reason_of cause tsn)) k.old held.now places.now out.old (call_told_of result k.new told.new) out.new }
{
    let served = face::closing::abort(*k, held, places, cause, tsn, out, told);
    *k = served.kept;
    served.number
}

// A message is taken.
#[unsafe(no_mangle)]
pub extern "C" fn ow_lent_take(
    k: &mut Kept,
    held: &mut [u32; 512],
    next_in: &mut [u16; 128],
    places: &[u32; 1024],
    area: &[u8],
    out: &mut [u8],
    told: &mut [usize; 5],
) -> u32
    ensures { Takes k.old places.now area.now (delivered_lent held.old next_in.old out.old) (call_told_of result k.new told.new) (delivered_lent held.new next_in.new out.new) }
{
    let served = face::delivering::take(*k, held, next_in, places, area, out, told);
    *k = served.kept;
    served.number
}

// A message for a stream, to be sent.
#[unsafe(no_mangle)]
pub extern "C" fn ow_lent_hand_in(
    k: &mut Kept,
    held: &[u32; 512],
    places: &mut [u32; 1024],
    area: &mut [u8],
    message: &[u8],
    stream: u16,
    unordered: u8,
    ppid: u32,
    told: &mut [usize; 1],
) -> u32
    ensures { HandsIn k.old held.now message.now stream unordered ppid (handed_lent places.old area.old) (call_told_of result k.new told.new) (handed_lent places.new area.new) }
{
    let served = face::handing::hand_in(
        *k, held, places, area, message, stream, unordered, ppid, told,
    );
    *k = served.kept;
    served.number
}

// A closed record at one of the host's ports, in one of the two books, whatever stood there.
#[unsafe(no_mangle)]
pub extern "C" fn ow_lent_close(
    k: &mut Kept,
    held: &mut [u32; 512],
    next_in: &mut [u16; 128],
    places: &mut [u32; 1024],
    next_out: &mut [u16; 128],
    kept_cookie: &mut [u8; 256],
    port: u16,
    mode: u8,
) -> u32
    ensures { Closes port mode (call_told_of result k.new []) (tables_lent held.new next_in.new places.new next_out.new kept_cookie.new) }
{
    let served = face::opening::close(*k, held, next_in, places, next_out, kept_cookie, port, mode);
    *k = served.kept;
    served.number
}

// Our own INIT.
#[unsafe(no_mangle)]
pub extern "C" fn ow_lent_associate(
    k: &mut Kept,
    held: &mut [u32; 512],
    next_in: &mut [u16; 128],
    places: &mut [u32; 1024],
    next_out: &mut [u16; 128],
    kept_cookie: &mut [u8; 256],
    tag: u32,
    tsn: u32,
    port: u16,
    streams: u16,
    out: &mut [u8],
    told: &mut [usize; 2],
) -> u32
    ensures { Associates k.old tag tsn port streams (associated_lent (tables_lent held.old next_in.old places.old next_out.old kept_cookie.old) out.old) (call_told_of result k.new told.new) (associated_lent (tables_lent held.new next_in.new places.new next_out.new kept_cookie.new) out.new) }
{
    let served = face::opening::associate(
        *k,
        held,
        next_in,
        places,
        next_out,
        kept_cookie,
        tag,
        tsn,
        port,
        streams,
        out,
        told,
    );
    *k = served.kept;
    served.number
}

// What the host must know of a packet before it arrives.
#[unsafe(no_mangle)]
pub extern "C" fn ow_lent_peek(packet: &[u8], told: &mut [usize; 10]) -> u32
    ensures { (result ≡ seen_number (peeked packet.now)) × (told.new ≡ seen_words (peeked packet.now)) }
{
    let seen = face::peeking::peek(packet);
    // An array that is a field goes by a variable: the borrow checker covers no other form.
    let words = seen.words;
    *told = words;
    seen.number
}

// A stream is not agreed.
#[unsafe(no_mangle)]
pub extern "C" fn ow_lent_error_stream(
    k: &mut Kept,
    held: &[u32; 512],
    places: &[u32; 1024],
    stream: u16,
    out: &mut [u8],
    told: &mut [usize; 2],
) -> u32
    ensures { Sends (λ a. telling_stream a (record { 0 = stream })) k.old held.now places.now out.old (call_told_of result k.new told.new) out.new }
{
    let served = face::telling::error_stream(*k, held, places, stream, out, told);
    *k = served.kept;
    served.number
}

// A cookie was stale.
#[unsafe(no_mangle)]
pub extern "C" fn ow_lent_error_stale(
    k: &mut Kept,
    held: &[u32; 512],
    places: &[u32; 1024],
    port: u16,
    tag: u32,
    late: u32,
    out: &mut [u8],
    told: &mut [usize; 2],
) -> u32
    ensures { Sends (λ a. telling_stale a port tag late) k.old held.now places.now out.old (call_told_of result k.new told.new) out.new }
{
    let served = face::telling::error_stale(*k, held, places, port, tag, late, out, told);
    *k = served.kept;
    served.number
}

// A value of the host goes out, to be brought back.
#[unsafe(no_mangle)]
pub extern "C" fn ow_lent_heartbeat(
    k: &mut Kept,
    held: &[u32; 512],
    places: &[u32; 1024],
    value: &[u8; 8],
    out: &mut [u8],
    told: &mut [usize; 2],
) -> u32
    ensures { Sends (λ a. beating a value.now) k.old held.now places.now out.old (call_told_of result k.new told.new) out.new }
{
    let served = face::telling::heartbeat(*k, held, places, value, out, told);
    *k = served.kept;
    served.number
}

// T1 expires: INIT or COOKIE ECHO again, or closed.
#[unsafe(no_mangle)]
pub extern "C" fn ow_lent_t1(
    k: &mut Kept,
    held: &[u32; 512],
    places: &[u32; 1024],
    kept_cookie: &[u8; 256],
    out: &mut [u8],
    told: &mut [usize; 2],
) -> u32
    ensures { Expires FirstTimer k.old held.now places.now kept_cookie.now out.old (call_told_of result k.new told.new) out.new }
{
    let served = face::timers::t1(*k, held, places, kept_cookie, out, told);
    *k = served.kept;
    served.number
}

// T2 expires: SHUTDOWN or SHUTDOWN ACK again, or closed.
#[unsafe(no_mangle)]
pub extern "C" fn ow_lent_t2(
    k: &mut Kept,
    held: &[u32; 512],
    places: &[u32; 1024],
    kept_cookie: &[u8; 256],
    out: &mut [u8],
    told: &mut [usize; 2],
) -> u32
    ensures { Expires SecondTimer k.old held.now places.now kept_cookie.now out.old (call_told_of result k.new told.new) out.new }
{
    let served = face::timers::t2(*k, held, places, kept_cookie, out, told);
    *k = served.kept;
    served.number
}

// T3 expires: what is outstanding is marked, or closed.
#[unsafe(no_mangle)]
pub extern "C" fn ow_lent_t3(
    k: &mut Kept,
    held: &[u32; 512],
    places: &mut [u32; 1024],
    told: &mut [usize; 2],
) -> u32
    ensures { Lapses k.old held.now places.old (call_told_of result k.new told.new) places.new }
{
    let served = face::timers::t3(*k, held, places, told);
    *k = served.kept;
    served.number
}

// A round trip was measured.
#[unsafe(no_mangle)]
pub extern "C" fn ow_lent_rtt(
    k: &mut Kept,
    held: &[u32; 512],
    places: &[u32; 1024],
    sample: u32,
    told: &mut [usize; 2],
) -> u32
    ensures { Samples k.old held.now places.now sample (call_told_of result k.new told.new) }
{
    let served = face::timers::rtt(*k, held, places, sample, told);
    *k = served.kept;
    served.number
}

// A packet of DATA chunks goes out.
#[unsafe(no_mangle)]
pub extern "C" fn ow_lent_transmit(
    k: &mut Kept,
    held: &[u32; 512],
    places: &mut [u32; 1024],
    next_out: &mut [u16; 128],
    area: &[u8],
    out: &mut [u8],
    told: &mut [usize; 4],
) -> u32
    ensures { Transmits k.old held.now area.now (dispatched_lent places.old next_out.old out.old) (call_told_of result k.new told.new) (dispatched_lent places.new next_out.new out.new) }
{
    let served = face::transmitting::transmit(*k, held, places, next_out, area, out, told);
    *k = served.kept;
    served.number
}

// What tells a header and a library of two days apart: it grows by one with each change of what crosses.
#[unsafe(no_mangle)]
pub extern "C" fn ow_version() -> u32
    ensures { result ≡ 2 }
{
    2
}

// The bytes of all that is lent: head, held chunks, next SSNs in, places, next SSNs out, cookie, verdicts.
#[unsafe(no_mangle)]
pub extern "C" fn ow_sizes(told: &mut [usize; 7])
    ensures { told.new ≡ 296 ∷ 2048 ∷ 256 ∷ 4096 ∷ 256 ∷ 256 ∷ 5840 ∷ [] }
{
    *told = [296, 2048, 256, 4096, 256, 256, 5840];
}
