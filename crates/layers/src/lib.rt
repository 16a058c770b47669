//! Rules made of rules.

#![tactic(auto)]

mod asking;
pub mod both;
pub mod each;
pub mod either;
mod joining;
pub mod mirror;
pub mod offset;
mod shifts;

pub use both::Both;
pub use each::Each;
pub use either::Either;
pub use mirror::Mirror;
pub use offset::Offset;
