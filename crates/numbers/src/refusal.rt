// Why something is refused: the numbers answered.
ghost use Rattle.std.specs.Prelude.{◌≡◌};
ghost use Rattle.numbers.specs.Refusal.{refusal_number, answered_number};

#[derive(Clone, Copy, PartialEq, Eq)]
pub enum Refusal {
    // A record outside its bounds.
    Record,
    // A packet's size.
    Size,
    Checksum,
    // Port or tag.
    Head,
    // A chunk's length.
    Length,
    // Bundled where it must stand alone.
    Bundled,
    // Not for this state.
    State,
    // What opens an association lacks something.
    Opening,
    Empty,
    Long,
    Duplicate,
    Wedged,
    Far,
    Stray,
    // A SACK's point is behind ours, or it names what was never sent.
    Stale,
    False,
    // No message can be taken.
    Nothing,
    // A lent output or area is too short.
    Short,
    // A message's length or stream.
    Message,
    // No room to send.
    Full,
    Clashing,
    Opposite,
    // An echoed cookie is bad or stale.
    Cookie,
}

impl Refusal {
    pub fn number(self) -> u8
        ensures { result ≡ refusal_number self }
    {
        match self {
            Refusal::Record => 1,
            Refusal::Size => 2,
            Refusal::Checksum => 3,
            Refusal::Head => 4,
            Refusal::Length => 5,
            Refusal::Bundled => 6,
            Refusal::State => 7,
            Refusal::Opening => 8,
            Refusal::Empty => 9,
            Refusal::Long => 10,
            Refusal::Duplicate => 11,
            Refusal::Wedged => 12,
            Refusal::Far => 13,
            Refusal::Stray => 14,
            Refusal::Stale => 15,
            Refusal::False => 16,
            Refusal::Nothing => 17,
            Refusal::Short => 18,
            Refusal::Message => 19,
            Refusal::Full => 20,
            Refusal::Clashing => 21,
            Refusal::Opposite => 24,
            Refusal::Cookie => 27,
        }
    }
}

// The number of what is refused, and 0 of what is not.
pub fn number_of(checked: Result<(), Refusal>) -> u8
    ensures { result ≡ answered_number checked }
{
    match checked {
        Ok(()) => 0,
        Err(refusal) => refusal.number(),
    }
}
