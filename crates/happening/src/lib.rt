// Any event, over the record by value, and over one that the host lends.
#![tactic(auto)]

pub mod happening;
pub mod running;
pub mod told;

pub use crate::happening::happen;
pub use crate::running::{run, run_coded};
pub use crate::told::{Ran, Told};
