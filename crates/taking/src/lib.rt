// Messages among held chunks that are lent as words: which one a take gives, and the take.
#![tactic(auto)]

pub mod choosing;
pub mod giving;
