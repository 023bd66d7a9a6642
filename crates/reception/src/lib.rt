// The receiving side over tables that are lent as words: an arrival, what a SACK says, and the bounds. A take is that of `taking`.
#![tactic(auto)]

pub mod acknowledging;
pub mod arrival;
pub mod bounds;

pub use crate::acknowledging::Acknowledged;
pub use crate::arrival::Arrived;
