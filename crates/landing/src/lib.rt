// A packet and its reply, over a record that is a head and lent tables.
#![tactic(auto)]

pub mod arrival;
pub mod reply;
pub mod tags;
pub mod verdict;
pub mod walk;

pub use crate::arrival::{Landed, arrive};
