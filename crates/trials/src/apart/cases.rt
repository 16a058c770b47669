//! Apart with known outcomes.

use crate::checks::{Checks, REFUSED};
use crate::outcome::Setting;
use crate::table::{Entries, SetByEntries, column, unreadable};
use differences::Apart;
use std::alloc::Global;
use std::io;

impl SetByEntries for Apart {
    /// The entry is two columns and a gap.
    fn set_by(&mut self, _heap: Global, entries: &Entries) -> io::Result<Setting> {
        let [one, other, gap] = *entries.numbers.as_slice() else {
            return Err(unreadable());
        };
        let set = self.set(entries.columns, column(one)?, column(other)?, gap);
        Ok(Setting(set))
    }
}

const TRIMS: &str = "
fresh                             |   |       |           -7 7 | leaves -7..7
fresh, two windows                |   |       |     -7 7, -7 7 | refused with 8 at 0
only 0 before 1                   | 2 | 0 1 4 |       0 5, 2 4 | set, leaves 0..0, 4..4
the same, named in turn           | 2 | 1 0 4 |       0 5, 2 4 | set, leaves 0..0, 4..4
a third column                    | 3 | 0 1 4 | 0 5, 2 4, -1 1 | set, leaves 0..0, 4..4, -1..1
a column between                  | 3 | 0 2 4 | 0 5, -1 1, 2 4 | set, leaves 0..0, -1..1, 4..4
only 1 before 0                   | 2 | 0 1 3 |       5 9, 4 6 | set, leaves 7..9, 4..6
either order                      | 2 | 0 1 4 |       0 9, 4 5 | set, leaves 0..9, 4..5
either order, and 5 is in no plan | 2 | 0 1 4 |       5 5, 4 5 | set, void
either order, at the ends         | 2 | 0 1 6 |       0 8, 2 6 | set, leaves 0..8, 2..6
no order                          | 2 | 0 1 7 |       0 8, 2 6 | set, void
two values                        | 2 | 0 1 1 |       2 3, 2 3 | set, leaves 2..3, 2..3
one value                         | 2 | 0 1 1 |       2 2, 2 2 | set, void
one plan, allowed                 | 2 | 0 1 4 |       1 1, 5 5 | set, leaves 1..1, 5..5
one plan, allowed                 | 2 | 0 1 4 |       5 5, 1 1 | set, leaves 5..5, 1..1
one plan, not allowed             | 2 | 0 1 4 |       1 1, 4 4 | set, void
one plan, not allowed             | 2 | 0 1 4 |       4 4, 1 1 | set, void
";

const FAR: &str = "
the largest gap           | 2 | 0 1 60000000 | -30000000 30000000, -30000000 30000000 | set, leaves -30000000..30000000, -30000000..30000000
the largest gap           | 2 | 0 1 60000000 | -30000000 29999999, -30000000 30000000 | set, leaves -30000000..-30000000, 30000000..30000000
the largest gap           | 2 | 0 1 60000000 | -30000000 30000000, -30000000 29999999 | set, leaves 30000000..30000000, -30000000..-30000000
the largest gap           | 2 | 0 1 60000000 | -30000000 29999999, -30000000 29999999 | set, void
one below the largest gap | 2 | 0 1 59999999 | -30000000 29999999, -30000000 29999999 | set, leaves -30000000..29999999, -30000000..29999999
";

/// A setting that is refused leaves the rule as the first line sets it.
const SETTINGS: &str = "
gap 4                   |  2 | 0 1 4        | 0 5, 2 4 | set, leaves 0..0, 4..4
no columns              |  0 | 0 1 1        | 0 5, 2 4 | refused with 1 at 0, leaves 0..0, 4..4
33 columns              | 33 | 0 1 1        | 0 5, 2 4 | refused with 1 at 0, leaves 0..0, 4..4
no such first column    |  2 | 2 0 1        | 0 5, 2 4 | refused with 2 at 0, leaves 0..0, 4..4
no such second column   |  2 | 0 2 1        | 0 5, 2 4 | refused with 2 at 0, leaves 0..0, 4..4
that, twice, and gap 0  |  2 | 5 5 0        | 0 5, 2 4 | refused with 2 at 0, leaves 0..0, 4..4
a column twice          |  2 | 1 1 4        | 0 5, 2 4 | refused with 10 at 0, leaves 0..0, 4..4
that, and gap 0         |  2 | 1 1 0        | 0 5, 2 4 | refused with 10 at 0, leaves 0..0, 4..4
one column, twice       |  1 | 0 0 4        | 0 5, 2 4 | refused with 10 at 0, leaves 0..0, 4..4
gap 0                   |  2 | 0 1 0        | 0 5, 2 4 | refused with 11 at 0, leaves 0..0, 4..4
gap -1                  |  2 | 0 1 -1       | 0 5, 2 4 | refused with 11 at 0, leaves 0..0, 4..4
gap 60000001            |  2 | 0 1 60000001 | 0 5, 2 4 | refused with 11 at 0, leaves 0..0, 4..4
gap 60000000            |  2 | 0 1 60000000 | 0 5, 2 4 | set, void
32 columns              | 32 | 31 0 1       | 0 5, 2 4 | set, refused with 8 at 0
gap 1                   |  2 | 0 1 1        | 0 5, 2 4 | set, leaves 0..5, 2..4
";

/// What the last line of the settings leaves.
const AS_SET: &str = "
as it was set           |    |              | 0 5, 2 4 | leaves 0..5, 2..4
";

pub(crate) fn check(checks: &mut Checks<'_>) -> io::Result<()> {
    let mut rule = Apart::fresh();
    for table in [TRIMS, FAR, SETTINGS, REFUSED, AS_SET] {
        checks.table(&mut rule, table)?;
    }
    Ok(())
}
