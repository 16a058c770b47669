//! Minutes of the day as a clock shows them.

use std::fmt;

/// The number of minutes since midnight.
#[derive(Clone, Copy)]
pub struct Clock(pub i32);

impl fmt::Display for Clock {
    fn fmt<W: fmt::Write>(&self, f: &mut fmt::Formatter<W>) -> fmt::Result {
        // Both arms print something, so there is no error to hand on.
        match u32::try_from(self.0) {
            Ok(minutes) => {
                let hour = minutes / 60;
                let minute = minutes % 60;
                write!(f, "{hour:02}:{minute:02}")
            }
            Err(_) => write!(f, "{} minutes", self.0),
        }
    }
}
