//! Rings of links: closed walks, those below 0, and the columns that a ring of length 0 ties.

#![tactic(auto)]

pub mod checks;
mod walks;

pub use checks::check_rings;
