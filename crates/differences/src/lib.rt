//! Rules about differences of columns: links over a closed table of distances, and two columns apart.

#![tactic(auto)]

pub mod apart;
pub mod boards;
pub mod check;
pub mod distance;
pub mod distances;
pub mod link;
pub mod links;
mod pairs;
pub mod trim;

pub use apart::Apart;
pub use boards::worked_boards;
pub use check::check_links;
pub use distance::Distance;
pub use distances::Distances;
pub use link::Link;
pub use links::Links;
pub use trim::trim_by;
