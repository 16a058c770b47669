//! The distances of columns that nothing binds.

ghost use Rattle.std.specs.Prelude.{◌≡◌, ◌≤◌};
ghost use Rattle.totals.specs.Orders.{unlinked_distance};

use differences::Distance;
use differences::link::FARTHEST;

/// The distances of 1 to 32 columns that nothing binds: 0 from a column to itself, else 60,000,000, which binds no two values.
// A type of its own, and no `Chain` of no summands, which would be no plainer: it says that nothing binds, and looks nothing up.
#[derive(Clone, Copy)]
pub struct Unlinked {
    columns: usize,
    ghost some: { 1 ≤ columns },
    ghost few: { columns ≤ 32 },
}

impl Unlinked {
    /// The distances of so many columns.
    pub(crate) fn of(columns: usize) -> Unlinked
        requires some { 1 ≤ columns }
        requires few { columns ≤ 32 }
        ensures { result.columns ≡ columns }
    {
        Unlinked { columns }
    }
}

impl Distance for Unlinked {
    ghost width = { λ u. u.columns };

    ghost distance = { λ _. unlinked_distance };

    fn columns(&self) -> usize {
        self.columns
    }

    fn between(&self, i: usize, j: usize) -> i32 {
        if i == j { 0 } else { FARTHEST }
    }
}
