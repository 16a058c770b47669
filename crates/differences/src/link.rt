//! Links between columns.

ghost use Rattle.std.specs.Prelude.{◌≡◌};
ghost use Rattle.differences.specs.Links.{present, two_columns, bounded};

/// Two values never differ by more. The bound of a link is from `-FARTHEST` to `FARTHEST`.
pub const FARTHEST: i32 = 60_000_000;

/// Column `left` is at most column `right` plus `bound`.
#[derive(Clone, Copy, PartialEq, Eq, Debug)]
pub struct Link {
    pub left: usize,
    pub right: usize,
    pub bound: i32,
}

impl Link {
    /// Column `left` is at most column `right` plus `bound`.
    pub fn new(left: usize, right: usize, bound: i32) -> Link
        ensures left { result.left ≡ left }
        ensures right { result.right ≡ right }
        ensures bound { result.bound ≡ bound }
    {
        Link { left, right, bound }
    }

    /// Both columns are there.
    pub fn is_present(&self, columns: usize) -> bool
        ensures { result ≡ present columns self.now }
    {
        self.left < columns && self.right < columns
    }

    /// The link joins two columns, and not one with itself.
    pub fn has_two_columns(&self) -> bool
        ensures { result ≡ two_columns self.now }
    {
        self.left != self.right
    }

    /// The bound is in its range.
    pub fn is_bounded(&self) -> bool
        ensures { result ≡ bounded self.now }
    {
        (-FARTHEST..=FARTHEST).contains(&self.bound)
    }
}
