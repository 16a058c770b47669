//! The vocabulary of visits: values, windows and plans, the faults that a call can answer,
//! and the interface that every rule keeps.

#![tactic(auto)]

pub mod check;
pub mod fault;
pub mod narrowing;
pub mod rule;
pub mod short_list;
pub mod verdict;
pub mod window;

pub use check::{Test, check_columns, check_windows, first_failing};
pub use fault::Fault;
pub use narrowing::trim;
pub use rule::Rule;
pub use short_list::ShortList;
pub use verdict::Verdict;
pub use window::Window;
