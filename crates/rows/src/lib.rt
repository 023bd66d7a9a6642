// What one chunk does to a record that is a head and lent tables: the rows of the state table, and the verdict.
#![tactic(auto)]

pub mod carrying;
pub mod chunk;
pub mod closing;
pub mod lent;
pub mod opening;
pub mod stepped;
pub mod unknown;

pub use crate::chunk::step;
pub use crate::lent::Tables;
pub use crate::stepped::Stepped;
