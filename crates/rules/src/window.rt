//! Values and windows.

ghost use Rattle.std.specs.Prelude.{◌≡◌};
ghost use Rattle.rules.specs.Plans.{lawful, spanned};

/// The smallest value, and the largest: a value is a whole number between them, both included.
pub const FIRST_VALUE: i32 = -30_000_000;

pub const LAST_VALUE: i32 = 30_000_000;

/// A board has 1 to 32 columns, numbered from 0.
// A number of columns is a `usize`, as the lengths and indices are that it is used with; a type that keeps one keeps its bounds.
pub const MOST_COLUMNS: usize = 32;

/// Room for the windows of the largest board.
pub const ROOM: [Window; MOST_COLUMNS] = [Window { first: 0, last: 0 }; MOST_COLUMNS];

/// The first and the last value that a column may take. It may be unlawful: ends that are no values, or the first above the last.
// It is what a caller offers, so any two numbers make one; where a call has judged it, contracts say that it is lawful.
#[derive(Clone, Copy, PartialEq, Eq, Debug)]
pub struct Window {
    pub first: i32,
    pub last: i32,
}

impl Window {
    /// Both ends are values, and the first is not above the last.
    pub fn is_lawful(&self) -> bool
        ensures { result ≡ lawful self.now }
    {
        // In order, so that three comparisons do: every trim asks this of every window, and two ranges took three times as long.
        FIRST_VALUE <= self.first && self.first <= self.last && self.last <= LAST_VALUE
    }

    /// The least window that holds both.
    pub fn span(&self, other: &Window) -> Window
        ensures { result ≡ spanned self.now other.now }
    {
        Window {
            first: self.first.min(other.first),
            last: self.last.max(other.last),
        }
    }
}
