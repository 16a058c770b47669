//! Sums with known outcomes.

use crate::checks::{Checks, REFUSED};
use crate::outcome::Setting;
use crate::sums::Total;
use crate::table::{Entries, SetByEntries, column, unreadable};
use std::alloc::Global;
use std::io;
use totals::{RisingSum, Sum};

impl<T: Total> SetByEntries for T {
    /// The entries are the total, then the summands.
    fn set_by(&mut self, heap: Global, entries: &Entries) -> io::Result<Setting> {
        let Some((total, summands)) = entries.numbers.split_first() else {
            return Err(unreadable());
        };
        let summands: Vec<usize> = summands.iter().map(|n| column(*n)).try_collect(heap)?;
        let set = self.set(entries.columns, column(*total)?, summands.as_slice());
        Ok(Setting(set))
    }
}

const SUMS: &str = "
fresh                  |   |         |                -7 7 | leaves -7..7
two summands           | 3 | 2 0 1   |       0 4, 0 4, 5 6 | set, leaves 1..4, 1..4, 5..6
below 0                | 3 | 2 0 1   |     -5 -1, -4 2, 0 9 | set, leaves -2..-1, 1..2, 0..1
no total               | 3 | 2 0 1   |      0 4, 0 4, 9 12 | set, void
one summand            | 2 | 0 1     |            0 5, 3 9 | set, leaves 3..5, 3..5
a column that is not summed | 4 | 3 0 2 | 0 4, -3 9, 0 4, 5 6 | set, leaves 1..4, -3..9, 1..4, 5..6
one plan, allowed      | 3 | 2 0 1   |       2 2, 3 3, 5 5 | set, leaves 2..2, 3..3, 5..5
one plan, not allowed  | 3 | 2 0 1   |       2 2, 3 3, 6 6 | set, void
the ends of the values | 3 | 2 0 1   | -30000000 0, -30000000 0, -30000000 -29999999 | set, leaves -30000000..0, -30000000..0, -30000000..-29999999
";

const RISING: &str = "
fresh                  |   |         |                -7 7 | leaves -7..7
two summands           | 3 | 2 0 1   |       0 4, 0 4, 5 6 | set, leaves 1..3, 3..4, 5..6
in the other order     | 3 | 2 1 0   |       0 4, 0 4, 5 6 | set, leaves 3..4, 1..3, 5..6
falling                | 3 | 2 0 1   |      4 9, 0 3, 0 20 | set, void
six summands           | 7 | 6 0 1 2 3 4 5 | 2 6, 4 7, 4 7, 5 7, 6 9, 7 9, 28 29 | set, leaves 2..3, 4..4, 4..5, 5..6, 6..7, 7..8, 28..29
one plan, not allowed  | 3 | 2 0 1   |       3 3, 2 2, 5 5 | set, void
";

/// A setting that is refused leaves the rule as the first line sets it.
const SETTINGS: &str = "
two summands           |  3 | 2 0 1     | 0 0, 0 4, 5 6 | set, void
no columns             |  0 | 0         | 0 0, 0 4, 5 6 | refused with 1 at 0, void
33 columns             | 33 | 40        | 0 0, 0 4, 5 6 | refused with 1 at 0, void
no such total          |  3 | 3 5 0 0   | 0 0, 0 4, 5 6 | refused with 2 at 0, void
no such summand        |  3 | 2 0 0 7   | 0 0, 0 4, 5 6 | refused with 2 at 3, void
no summand             |  3 | 2         | 0 0, 0 4, 5 6 | refused with 9 at 0, void
a summand twice        |  3 | 2 1 0 1 2 | 0 0, 0 4, 5 6 | refused with 10 at 3, void
the total as a summand |  3 | 2 1 2     | 0 0, 0 4, 5 6 | refused with 10 at 2, void
32 summands            |  3 | 2 0 1 0 1 0 1 0 1 0 1 0 1 0 1 0 1 0 1 0 1 0 1 0 1 0 1 0 1 0 1 0 1 | 0 0, 0 4, 5 6 | refused with 9 at 0, void
31 summands            | 32 | 31 0 1 2 3 4 5 6 7 8 9 10 11 12 13 14 15 16 17 18 19 20 21 22 23 24 25 26 27 28 29 30 | 0 0, 0 4, 5 6 | set, refused with 8 at 0
one summand            |  2 | 0 1       | 0 5, 3 9 | set, leaves 3..5, 3..5
";

/// What the rule has of its own, and what is refused of both.
fn check_rule<T: Total + Drop>(checks: &mut Checks<'_>, own: &str) -> io::Result<()> {
    let mut rule = T::fresh();
    for table in [own, SETTINGS, REFUSED] {
        checks.table(&mut rule, table)?;
    }
    Ok(())
}

pub(crate) fn check(checks: &mut Checks<'_>) -> io::Result<()> {
    check_rule::<Sum>(checks, SUMS)?;
    check_rule::<RisingSum>(checks, RISING)
}
