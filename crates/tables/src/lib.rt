// The tables of a record as words that are lent: no record is copied to look at one place, and any words show some places.
#![tactic(auto)]

pub mod held;
pub mod place;
pub mod ssns;
