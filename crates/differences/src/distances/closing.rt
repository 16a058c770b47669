//! Filling a table from links, and closing it.

ghost use Rattle.std.specs.Prelude.{◌≡◌, ℕ, ◌<◌, ◌≤◌, length, pos, ◌≢◌, MatchOption, slice_index_or};
ghost use Rattle.std.specs.Int.{int_min};
ghost use Rattle.differences.specs.Tables.{Near, entry};
ghost use Rattle.differences.specs.Closing.{NearRow, NearRows, AllFar, Unlinked, GoodLinks, Entered, Relaxed, TooFar, Stepped, NoValues, ClosedFrom};

use crate::distances::Row;
use crate::link::{FARTHEST, Link};
use rules::window::MOST_COLUMNS;

// The rows are lent, and no struct with ghost fields holds them: for walks that was tried, and the check does not lend a row of one yet.

/// Lowers one entry of a row to `bound`.
fn lower(row: &mut Row, column: usize, bound: i32)
    requires { column < 32 }
    ensures same { slice_index_or row.new column (pos 0) ≡ int_min (slice_index_or row.old column (pos 0)) bound }
    ensures other { (j : ℕ) → (j ≢ column) → slice_index_or row.new j (pos 0) ≡ slice_index_or row.old j (pos 0) }
{
    row[column] = row[column].min(bound);
}

/// Each column as far from each as two values can be.
fn farthest_rows() -> [Row; MOST_COLUMNS]
    ensures { AllFar result }
{
    [[FARTHEST; MOST_COLUMNS]; MOST_COLUMNS]
}

/// Writes 0 for the distance of each column to itself.
fn zero_diagonal(rows: &mut [Row])
    requires long { length rows.old ≡ 32 }
    requires far { AllFar rows.old }
    ensures { Unlinked rows.new }
{
    for (i, row) in rows.iter_mut().enumerate() {
        lower(row, i, 0);
    }
}

/// The table that binds no two values.
pub(super) fn unlinked() -> [Row; MOST_COLUMNS]
    ensures { Unlinked result }
{
    let mut rows = farthest_rows();
    zero_diagonal(&mut rows);
    rows
}

/// Enters the links into a table that binds no two values.
pub(super) fn enter(rows: &mut [Row], columns: usize, links: &[Link])
    requires few { columns ≤ 32 }
    requires long { length rows.old ≡ 32 }
    requires unlinked { Unlinked rows.old }
    requires good { GoodLinks columns links.now }
    ensures { Entered columns links.now (length links.now) rows.new }
{
    for link in links {
        lower(&mut rows[link.right], link.left, link.bound);
    }
}

/// Shortens the leading entries of `row` by way of a column that is `leg` away and whose own distances are `through`.
/// `None`: two columns lie farther apart than any two values.
fn relax(row: &mut Row, through: &[i32], leg: i32) -> Option<()>
    requires few { length through.now ≤ 32 }
    requires row { NearRow (length through.now) row.old }
    requires through { NearRow (length through.now) through.now }
    requires leg { Near leg }
    ensures { MatchOption result (TooFar (length through.now) through.now leg) (λ _. Relaxed (length through.now) row.old through.now leg row.new) }
{
    // An index, not `zip`: after a `zip` over `iter_mut` nothing is known of what was written.
    for (j, rest) in through.iter().enumerate() {
        let sum = leg + *rest;
        if sum < -FARTHEST {
            return None;
        }
        row[j] = row[j].min(sum);
    }
    Some(())
}

/// Shortens each distance by way of column `m`. `None`: no values obey the table.
fn pass(rows: &mut [Row], m: usize) -> Option<()>
    requires few { length rows.old ≤ 32 }
    requires there { m < length rows.old }
    requires near { NearRows (length rows.old) rows.old }
    ensures { MatchOption result (NoValues (length rows.old) rows.old) (λ _. Stepped (length rows.old) m (entry rows.old) (entry rows.new) × NearRows (length rows.old) rows.new) }
{
    let columns = rows.len();
    let through = rows[m];
    for (i, row) in rows.iter_mut().enumerate() {
        let leg = row[m];
        relax(row, &through[..columns], leg)?;
        if row[i] < 0 {
            return None;
        }
    }
    Some(())
}

/// Makes the table closed, so that it says of values what it said before. `None`: no values obey it.
pub(super) fn close(rows: &mut [Row]) -> Option<()>
    requires few { length rows.old ≤ 32 }
    requires near { NearRows (length rows.old) rows.old }
    requires zeros { (i : ℕ) → i < length rows.old → entry rows.old i i ≡ pos 0 }
    ensures { MatchOption result (NoValues (length rows.old) rows.old) (λ _. ClosedFrom (length rows.old) rows.old rows.new) }
{
    // A range, not the rows: each turn reads one row and writes all.
    for m in 0..rows.len() {
        pass(rows, m)?;
    }
    Some(())
}
