// What the host keeps and hands over, as numbers and structs without an enum.
#![tactic(auto)]

pub mod cause;
pub mod flags;
pub mod head;
pub mod parts;
pub mod word;

pub use crate::head::{Kept, is_named, pack, unpack};
