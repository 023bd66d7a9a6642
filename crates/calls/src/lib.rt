// The calls of the host, but the arrival of a packet: what each answers and leaves; what is refused leaves all. Their code over tables: `asks`.
#![tactic(auto)]

pub mod acknowledging;
pub mod answer;
pub mod closing;
pub mod messages;
pub mod peeking;
pub mod transmitting;

pub use crate::acknowledging::Acknowledged;
pub use crate::answer::Answer;
pub use crate::closing::Reason;
pub use crate::messages::{Delivered, HandedIn};
pub use crate::peeking::{Peeked, peek};
pub use crate::transmitting::Transmitted;
