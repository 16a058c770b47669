//! What a rule says, straight from its words.

use std::fmt;

/// A rule as a test of whole plans. Its text says which rule it is.
// A trait, and no closure: the words are told as a text too.
pub trait Words: fmt::Display {
    /// Whether the plan is allowed.
    fn allows(&self, plan: &[i32]) -> bool;
}
