//! A rule that a depot wrote for itself, proved against the interface of rules.

#![tactic(auto)]

mod hours;
pub mod quarter_hours;

pub use quarter_hours::QuarterHours;
