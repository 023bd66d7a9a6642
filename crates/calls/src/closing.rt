// The host closes.
use numbers::Tsn;

// Why the host aborts: its user wants it, a DATA chunk had no data (9), or the peer broke the protocol (12, 16).
#[derive(Clone, Copy)]
pub enum Reason {
    User,
    NoData(Tsn),
    Violation,
}
