// What can happen to an association, and what the host is told of it.
#![tactic(auto)]

pub mod event;
pub mod told;

pub use crate::event::Event;
pub use crate::told::{Ran, Told};
