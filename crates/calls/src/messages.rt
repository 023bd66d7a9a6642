// Messages are handed in and taken.
use association::Association;
use holding::taking::Message;

// The number, 0 if none; into how many chunks the message was cut; the record.
// Kept as it is, with a number: the definitions of specs/ answer it, and no code makes one.
#[derive(Clone, Copy)]
pub struct HandedIn {
    pub number: u8,
    pub chunks: usize,
    pub association: Association,
}

// The number, 0 if none; the message, of which a refusal with 18 gives the length needed; the record.
// Kept as it is, with a number: the definitions of specs/ answer it, and no code makes one.
#[derive(Clone, Copy)]
pub struct Delivered {
    pub number: u8,
    pub message: Message,
    pub association: Association,
}
