// A take: the chosen message's bytes go to the lent output, its places are freed, and its stream expects the next.
ghost use Rattle.std.specs.Prelude.{length};

use crate::held::Held;
use numbers::{Rail, Ssn, StreamId};

// What a take gives beside the bytes.
#[repr(C)]
#[derive(Clone, Copy)]
pub struct Message {
    pub length: usize,
    pub stream: StreamId,
    pub unordered: bool,
    pub ssn: Ssn,
    pub ppid: u32,
}

#[derive(Clone, Copy)]
pub enum Answer {
    Taken(Message),
    Nothing,
    // The lent output is too short: the length needed.
    Short(usize),
}

#[derive(Clone, Copy)]
pub struct Took {
    pub answer: Answer,
    pub held: [Held; Rail::PLACES],
    pub next: [Ssn; Rail::STREAMS],
}
