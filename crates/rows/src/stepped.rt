// What became of a chunk, where the record is a head and lent tables.
ghost use Rattle.std.specs.Prelude.{◌≡◌, []};
ghost use Rattle.steps.specs.Verdict.{accepted, answering, owing, refused, quiet};
ghost use Rattle.flat.specs.Shown.{bare};
ghost use Rattle.rows.specs.Stepped.{stepped_with, unread_of};

use flat::Head;
use steps::{Event, Fate, Named, Owed, Told};

// The head after a chunk, its verdict, whether the rest of the packet is unread, what is owed, and how many bytes it added to the reply.
#[derive(Clone, Copy)]
pub struct Stepped {
    pub head: Head,
    pub fate: Fate,
    pub named: Named,
    pub event: Event,
    pub unread: bool,
    pub owed: Owed,
    pub written: usize,
}

impl Stepped {
    // Accepted, with so many bytes in the reply.
    pub fn accepted(head: Head, event: Event, written: usize) -> Stepped
        ensures { result ≡ stepped_with written (accepted (bare head) event []) }
    {
        Stepped {
            head,
            fate: Fate::Accepted,
            named: Named::NoCall,
            event,
            unread: false,
            owed: Owed::Nothing,
            written,
        }
    }

    // The same, and the reply goes to this tag.
    pub fn answering(head: Head, event: Event, tag: u32, written: usize) -> Stepped
        ensures { result ≡ stepped_with written (answering (bare head) event tag []) }
    {
        Stepped {
            owed: Owed::To(tag),
            ..Stepped::accepted(head, event, written)
        }
    }

    // Accepted, with nothing in the reply but what it then owes.
    pub fn owing(head: Head, event: Event, owed: Owed) -> Stepped
        ensures { result ≡ stepped_with 0 (owing (bare head) event owed) }
    {
        Stepped {
            owed,
            ..Stepped::accepted(head, event, 0)
        }
    }

    pub fn refused(head: Head, number: u8, named: Named) -> Stepped
        ensures { result ≡ stepped_with 0 (refused (bare head) number named) }
    {
        Stepped {
            fate: Fate::Refused(number),
            named,
            ..Stepped::accepted(head, Event::NoEvent, 0)
        }
    }

    // Told so, with nothing else done.
    pub fn quiet(head: Head, t: Told) -> Stepped
        ensures { result ≡ stepped_with 0 (quiet (bare head) t) }
    {
        Stepped {
            fate: t.fate,
            named: t.named,
            ..Stepped::accepted(head, Event::NoEvent, 0)
        }
    }

    // The rest of the packet is left unread.
    pub fn ending(self) -> Stepped
        ensures { result ≡ unread_of self }
    {
        Stepped {
            unread: true,
            ..self
        }
    }
}
