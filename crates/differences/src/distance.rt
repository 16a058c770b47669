//! Distances between columns.

ghost use Rattle.std.specs.Prelude.{◌≡◌, ℕ, ◌≤◌, ℤ};
ghost use Rattle.differences.specs.Tables.{Closed};

/// A distance for each two of 1 to 32 columns: column `j` is at most column `i` plus `between(i, j)`.
///
/// The distance from a column to itself is 0, and no way through another column is shorter.
pub trait Distance {
    ghost width: { Self → ℕ };

    ghost distance: { Self → ℕ → ℕ → ℤ };

    /// The number of columns.
    fn columns(&self) -> usize
        ensures value { result ≡ width self.now }
        ensures few { (1 ≤ result) × (result ≤ 32) }
        ensures closed { Closed (width self.now) (distance self.now) };

    /// The most by which column `j` may exceed column `i`.
    fn between(&self, i: usize, j: usize) -> i32
        ensures { result ≡ distance self.now i j };
}
