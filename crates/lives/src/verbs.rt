// The word at the head of a line.
use crate::host::{ACKNOWLEDGE, ASSOCIATE, HAND_IN_UNORDERED, TRANSMIT};
use pages::reading::{first, rest};

#[derive(Clone, Copy, PartialEq, Eq)]
pub(crate) enum Verb {
    // Packets: in parts, the other end's last one, or one whose bytes all stand there.
    Hears,
    Gets,
    Raw,
    // Other events that take more than numbers, or have their own output.
    Hands,
    Takes,
    TakesEight,
    Aborts,
    Beats,
    // Any other event, by its number.
    Event(u8),
    // No event.
    Peeks,
    Glances,
    Shows,
    Closed,
    Spoils,
    Rests,
    Saves,
    Lends,
    Judges,
    // What stands before another word.
    From,
    Short,
    Small,
}

// A number that names no event.
const UNKNOWN: u8 = 20;

impl Verb {
    pub(crate) fn is_event(self) -> bool {
        matches!(
            self,
            Verb::Hears
                | Verb::Gets
                | Verb::Raw
                | Verb::Hands
                | Verb::Takes
                | Verb::TakesEight
                | Verb::Aborts
                | Verb::Beats
                | Verb::Event(_)
        )
    }
}

// A line with no word rests.
pub(crate) fn of(line: &[u8]) -> Verb {
    match first(line) {
        b"hears" => Verb::Hears,
        b"gets" => Verb::Gets,
        b"raw" => Verb::Raw,
        b"associates" => Verb::Event(ASSOCIATE),
        b"hands" => Verb::Hands,
        // A message with no bytes, in no order.
        b"." => Verb::Event(HAND_IN_UNORDERED),
        b"transmits" => Verb::Event(TRANSMIT),
        b"takes" => Verb::Takes,
        b"takes8" => Verb::TakesEight,
        b"acknowledges" => Verb::Event(ACKNOWLEDGE),
        b"t1" => Verb::Event(9),
        b"t2" => Verb::Event(10),
        b"t3" => Verb::Event(11),
        b"shuts" => Verb::Event(12),
        b"aborts" => Verb::Aborts,
        b"strays" => Verb::Event(16),
        b"lates" => Verb::Event(17),
        b"beats" => Verb::Beats,
        b"rtt" => Verb::Event(19),
        b"peeks" => Verb::Peeks,
        b"glances" => Verb::Glances,
        b"shows" => Verb::Shows,
        b"closed" => Verb::Closed,
        b"spoils" => Verb::Spoils,
        b"rests" | b"" => Verb::Rests,
        b"saves" => Verb::Saves,
        b"lends" => Verb::Lends,
        b"judges" => Verb::Judges,
        b"from" => Verb::From,
        b"short" => Verb::Short,
        b"small" => Verb::Small,
        _ => Verb::Event(UNKNOWN),
    }
}

// The line behind a word, if it stands there.
pub(crate) fn behind(line: &[u8], verb: Verb) -> &[u8] {
    if of(line) == verb { rest(line) } else { line }
}

// The line behind what says with which output and areas it is done.
pub(crate) fn deed(line: &[u8]) -> &[u8] {
    behind(behind(line, Verb::Short), Verb::Small)
}
