//! What can be wrong with an answer of a rule.

use std::fmt;

#[derive(Clone, Copy)]
pub enum Wrong {
    /// The setting or the windows are refused.
    Refused,
    /// There is no plan, and the windows are others all the same.
    Moved,
    /// There is said to be no plan, and there is one.
    Overlooked,
    /// A window that is left is not inside the one given, or is empty.
    Wider,
    /// A value is struck that is in a plan.
    Struck,
    /// A value is left that ought to be in a plan, and is in none.
    Unsupported,
}

impl fmt::Display for Wrong {
    fn fmt<W: fmt::Write>(&self, f: &mut fmt::Formatter<W>) -> fmt::Result {
        match self {
            Wrong::Refused => f.write_str("nothing is to be refused"),
            Wrong::Moved => f.write_str("the windows are to stay"),
            Wrong::Overlooked => f.write_str("there is a plan"),
            Wrong::Wider => f.write_str("a window is not inside what it was"),
            Wrong::Struck => f.write_str("a value of a plan is struck"),
            Wrong::Unsupported => f.write_str("a value that is left is in no plan"),
        }
    }
}
