// The calls of the host, but the arrival of a packet, over a head by value and tables that are lent. What is answered holds the head, where it may change; what is refused leaves all.
#![tactic(auto)]

pub mod acknowledging;
pub mod answer;
pub mod closing;
pub mod delivering;
pub mod handing;
pub mod opening;
mod packet;
pub mod telling;
pub mod timers;
pub mod transmitting;

pub use crate::acknowledging::{Acknowledged, sack};
pub use crate::answer::Answered;
pub use crate::closing::{abort, shutdown};
pub use crate::delivering::{Undelivered, take};
pub use crate::handing::hand_in;
pub use crate::opening::associate;
pub use crate::telling::{error_stale, error_stream, heartbeat};
pub use crate::timers::{rtt, t1, t2, t3};
pub use crate::transmitting::{Transmitted, transmit};
