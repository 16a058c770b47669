//! The scenes of the tour, in the order in which they are told.

pub mod asked;
pub mod crew;
pub mod gaps;
pub mod no_plan;
pub mod refused;
pub mod turns;
pub mod working_time;
