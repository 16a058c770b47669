//! Sums of columns.

#![tactic(auto)]

mod chain;
pub mod check;
mod cutting;
pub mod linked;
mod order;
mod reaching;
pub mod rising;
pub mod sum;
pub mod terms;
mod trim;
mod unlinked;

pub use check::check_sum;
pub use linked::LinkedSum;
pub use linked::check::check_linked;
pub use rising::RisingSum;
pub use sum::Sum;
