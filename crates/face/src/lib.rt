// What a host calls: for each call a function over the head as the host keeps it, by value, and over tables that it lends. Pointers and numbers are all that it is given.
// Crate `face_c` exports each to C and Rust, over a head that is lent too.
#![tactic(auto)]

pub mod acknowledging;
pub mod answer;
pub mod arrival;
pub mod closing;
pub mod delivering;
pub mod handing;
pub mod opening;
pub mod peeking;
pub mod telling;
pub mod timers;
pub mod transmitting;
