//! Links with known outcomes.

use crate::checks::{Checks, REFUSED};
use crate::outcome::Setting;
use crate::table::{Entries, SetByEntries, column, unreadable};
use differences::{Link, Links};
use std::alloc::Global;
use std::io;

impl SetByEntries for Links {
    /// An entry is a left column, a right column and a bound.
    fn set_by(&mut self, heap: Global, entries: &Entries) -> io::Result<Setting> {
        let mut links = Vec::new(heap);
        for entry in entries.numbers.chunks(3) {
            let [left, right, bound] = *entry else {
                return Err(unreadable());
            };
            links.push(Link::new(column(left)?, column(right)?, bound))?;
        }
        Ok(Setting(self.set(entries.columns, links.as_slice())))
    }
}

const TRIMS: &str = "
fresh                       |   |                         |            -7 7 | leaves -7..7
fresh, two windows          |   |                         |      -7 7, -7 7 | refused with 8 at 0
at least 3 below            | 2 | 0 1 -3                  |        0 5, 0 9 | set, leaves 0..5, 3..9
no links                    | 2 |                         |       -4 4, 0 9 | set, leaves -4..4, 0..9
one column                  | 1 |                         |             7 7 | set, leaves 7..7
a chain                     | 3 | 0 1 -2, 1 2 -3          |   0 9, 0 9, 0 9 | set, leaves 0..4, 2..6, 5..9
the same chain              | 3 | 1 2 -3, 0 1 -2          |   0 9, 0 9, 0 9 | set, leaves 0..4, 2..6, 5..9
a column between            | 3 | 2 0 -4                  |  -9 9, 7 8, 0 3 | set, leaves 4..9, 7..8, 0..3
three links for one pair    | 2 | 0 1 5, 0 1 -1, 0 1 2    |        0 9, 0 4 | set, leaves 0..3, 1..4
one plan, allowed           | 2 | 0 1 -3                  |        3 3, 6 6 | set, leaves 3..3, 6..6
one plan, not allowed       | 2 | 0 1 -3                  |        3 3, 5 5 | set, void
a ring of -1                | 2 | 0 1 1, 1 0 -2           |        0 5, 0 5 | set, void
a ring of -1 through three  | 3 | 0 1 5, 1 2 5, 2 0 -11   | 0 90, 0 90, 0 9 | set, void
equal columns               | 2 | 0 1 0, 1 0 0            |      -4 3, -1 8 | set, leaves -1..3, -1..3
exactly 2 below             | 2 | 0 1 -2, 1 0 2           |        0 5, 0 4 | set, leaves 0..2, 2..4
at most 1 apart             | 2 | 0 1 1, 1 0 1            |        0 2, 3 9 | set, leaves 2..2, 3..3
at most 1 apart, too far    | 2 | 0 1 1, 1 0 1            |        0 2, 4 9 | set, void
";

const FAR: &str = "
a ring of -1                | 2 | 0 1 -1, 1 0 0           | -30000000 30000000, -30000000 30000000 | set, void
the smallest bound          | 2 | 0 1 -60000000           | -30000000 30000000, -30000000 30000000 | set, leaves -30000000..-30000000, 30000000..30000000
the largest bound           | 2 | 0 1 60000000            | -30000000 30000000, -30000000 30000000 | set, leaves -30000000..30000000, -30000000..30000000
the largest bound           | 2 | 0 1 60000000            | 30000000 30000000, -30000000 -30000000 | set, leaves 30000000..30000000, -30000000..-30000000
one below the largest bound | 2 | 0 1 59999999            | 30000000 30000000, -30000000 -30000000 | set, void
the smallest bound twice    | 3 | 0 1 -60000000, 1 2 -60000000 | -30000000 30000000, -30000000 30000000, -30000000 30000000 | set, void
";

/// A setting that is refused leaves the rule as the first line sets it.
const SETTINGS: &str = "
at least 3 below            |  2 | 0 1 -3                 | 0 5, 0 9 | set, leaves 0..5, 3..9
no columns                  |  0 |                        | 0 5, 0 9 | refused with 1 at 0, leaves 0..5, 3..9
33 columns                  | 33 |                        | 0 5, 0 9 | refused with 1 at 0, leaves 0..5, 3..9
no columns, and a link      |  0 | 0 1 0                  | 0 5, 0 9 | refused with 1 at 0, leaves 0..5, 3..9
no such left column         |  2 | 2 0 0                  | 0 5, 0 9 | refused with 2 at 0, leaves 0..5, 3..9
no such right column        |  2 | 0 1 0, 1 2 0           | 0 5, 0 9 | refused with 2 at 1, leaves 0..5, 3..9
no such column, twice       |  2 | 5 5 0                  | 0 5, 0 9 | refused with 2 at 0, leaves 0..5, 3..9
that, after a bad bound     |  2 | 0 1 60000001, 0 9 0    | 0 5, 0 9 | refused with 2 at 1, leaves 0..5, 3..9
a column twice              |  2 | 0 1 0, 1 1 0           | 0 5, 0 9 | refused with 10 at 1, leaves 0..5, 3..9
that, after a bad bound     |  2 | 0 1 60000001, 1 1 0    | 0 5, 0 9 | refused with 10 at 1, leaves 0..5, 3..9
a bound above its range     |  2 | 0 1 60000001           | 0 5, 0 9 | refused with 11 at 0, leaves 0..5, 3..9
a bound below its range     |  2 | 0 1 0, 0 1 -60000001   | 0 5, 0 9 | refused with 11 at 1, leaves 0..5, 3..9
the smallest number         |  2 | 0 1 -2147483648        | 0 5, 0 9 | refused with 11 at 0, leaves 0..5, 3..9
the ends of the range       |  2 | 0 1 60000000, 1 0 -60000000 | 0 5, 0 9 | set, void
a ring below 0, unlawful    |  2 | 0 1 1, 1 0 -2          | 0 5, 1 0 | set, refused with 3 at 1
32 columns                  | 32 | 31 30 0                | 0 5, 0 9 | set, refused with 8 at 0
no links                    |  2 |                        | 0 5, 0 9 | set, leaves 0..5, 0..9
the other way round         |  2 | 1 0 -3                 | 0 5, 0 9 | set, leaves 3..5, 0..2
";

/// Each of 32 columns is at least 1 below the next.
const MANY: &str = "
32 columns that rise | 32 | 0 1 -1, 1 2 -1, 2 3 -1, 3 4 -1, 4 5 -1, 5 6 -1, 6 7 -1, 7 8 -1, 8 9 -1, 9 10 -1, 10 11 -1, 11 12 -1, 12 13 -1, 13 14 -1, 14 15 -1, 15 16 -1, 16 17 -1, 17 18 -1, 18 19 -1, 19 20 -1, 20 21 -1, 21 22 -1, 22 23 -1, 23 24 -1, 24 25 -1, 25 26 -1, 26 27 -1, 27 28 -1, 28 29 -1, 29 30 -1, 30 31 -1 | 0 32, 0 32, 0 32, 0 32, 0 32, 0 32, 0 32, 0 32, 0 32, 0 32, 0 32, 0 32, 0 32, 0 32, 0 32, 0 32, 0 32, 0 32, 0 32, 0 32, 0 32, 0 32, 0 32, 0 32, 0 32, 0 32, 0 32, 0 32, 0 32, 0 32, 0 32, 0 32 | set, leaves 0..1, 1..2, 2..3, 3..4, 4..5, 5..6, 6..7, 7..8, 8..9, 9..10, 10..11, 11..12, 12..13, 13..14, 14..15, 15..16, 16..17, 17..18, 18..19, 19..20, 20..21, 21..22, 22..23, 23..24, 24..25, 25..26, 26..27, 27..28, 28..29, 29..30, 30..31, 31..32
too few values       |    | | 0 30, 0 30, 0 30, 0 30, 0 30, 0 30, 0 30, 0 30, 0 30, 0 30, 0 30, 0 30, 0 30, 0 30, 0 30, 0 30, 0 30, 0 30, 0 30, 0 30, 0 30, 0 30, 0 30, 0 30, 0 30, 0 30, 0 30, 0 30, 0 30, 0 30, 0 30, 0 30 | void
";

/// Lists of 256 links and more.
fn check_lengths(checks: &mut Checks<'_>, rule: &mut Links) -> io::Result<()> {
    let mut links = vec![in checks.heap(); Link::new(0, 1, -3); 256]?;
    checks.setting("256 links", rule.set(2, links.as_slice()), "set")?;
    links.push(Link::new(1, 1, 60_000_001))?;
    checks.setting(
        "257 links, a column twice",
        rule.set(2, links.as_slice()),
        "refused with 9 at 0",
    )?;
    links.push(Link::new(0, 2, 0))?;
    checks.setting(
        "258 links, no such column",
        rule.set(2, links.as_slice()),
        "refused with 2 at 257",
    )
}

pub(crate) fn check(checks: &mut Checks<'_>) -> io::Result<()> {
    let mut rule = Links::fresh();
    checks.table(&mut rule, TRIMS)?;
    checks.table(&mut rule, FAR)?;
    checks.table(&mut rule, MANY)?;
    checks.table(&mut rule, SETTINGS)?;
    check_lengths(checks, &mut rule)?;
    checks.table(&mut rule, REFUSED)?;
    checks.table(
        &mut rule,
        "as 256 links set it | | | 0 5, 0 9 | leaves 0..5, 3..9",
    )
}
