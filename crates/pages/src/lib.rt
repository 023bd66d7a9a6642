// The lines that the programs read and write: each says what is done, and behind a colon what should come of it. Programs alone rest on this crate. Its
// functions promise what they answer and what they leave in a lent buffer; of what goes to the output nothing is promised (docs/PROMISES.md).
#![tactic(auto)]

pub mod page;
pub mod reading;
