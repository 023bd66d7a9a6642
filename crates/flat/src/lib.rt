// The record of an association where it lies: a head that goes by value, and its tables beside it, which are lent as words.
#![tactic(auto)]

pub mod bounds;
pub mod fresh;
pub mod head;

pub use crate::head::{Association, Head};
