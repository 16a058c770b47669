//! Windows as text.

use rules::Window;
use std::fmt;

/// A list of windows as text: `0..5, 3..9`.
#[derive(Clone, Copy)]
pub struct Shown<'a>(pub &'a [Window]);

impl<'a> fmt::Display for Shown<'a> {
    fn fmt<W: fmt::Write>(&self, f: &mut fmt::Formatter<W>) -> fmt::Result {
        for (i, window) in self.0.iter().enumerate() {
            if i > 0 {
                f.write_str(", ")?;
            }
            let first = window.first;
            let last = window.last;
            write!(f, "{first}..{last}")?;
        }
        Ok(())
    }
}
