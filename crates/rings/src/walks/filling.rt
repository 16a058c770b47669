//! Entering links into a table of walks, and closing it.

ghost use Rattle.std.specs.Prelude.{◌≡◌, ◌≢◌, ℕ, ◌<◌, ◌≤◌, Some, None};
ghost use Rattle.differences.specs.Links.{links_refusal};
ghost use Rattle.rings.specs.Tables.{at, entry, shorter, joined, Moderate, ModerateRow, ModerateRows, Relaxed, Stepped, Blank, Bounded, Entered, Walks};

use crate::walks::{ClosedTable, Row, Table};
use differences::Link;
use rules::window::MOST_COLUMNS;

impl Table {
    /// A table that holds no walk yet.
    pub(crate) fn blank(columns: usize) -> Table
        ensures columns { result.columns ≡ columns }
        ensures blank { Blank 32 result.rows }
    {
        Table {
            columns,
            rows: [[None; MOST_COLUMNS]; MOST_COLUMNS],
        }
    }

    /// Enters the links into a blank table, each of them a walk.
    fn enter(&mut self, links: &[Link])
        requires blank { Blank 32 self.old.rows }
        requires taken { links_refusal self.old.columns links.now ≡ None }
        ensures columns { self.new.columns ≡ self.old.columns }
        ensures entered { Entered self.old.columns links.now (at self.new.rows) }
    {
        for link in links {
            note(&mut self.rows[link.right], link);
        }
    }

    /// Enters the ways by column `m` into each row.
    fn pass(&mut self, m: usize)
        requires few { self.old.columns ≤ 32 }
        requires m_there { m < self.old.columns }
        requires moderate { ModerateRows self.old.columns self.old.rows }
        ensures columns { self.new.columns ≡ self.old.columns }
        ensures stepped { Stepped self.old.columns m (at self.old.rows) (at self.new.rows) }
    {
        let columns = self.columns;
        let through = self.rows[m];
        for row in self.rows[..columns].iter_mut() {
            let leg = row[m];
            relax(row, columns, &through, leg);
        }
    }

    /// Fills a blank table with the walks along the links, by any columns.
    pub(crate) fn fill(&mut self, links: &[Link])
        requires blank { Blank 32 self.old.rows }
        requires taken { links_refusal self.old.columns links.now ≡ None }
        ensures columns { self.new.columns ≡ self.old.columns }
        ensures walks { Walks self.old.columns links.now self.old.columns (at self.new.rows) }
        ensures bounded { Bounded self.old.columns 257698037760000000 (at self.new.rows) }
    {
        self.enter(links);
        // A range, not the rows: each turn reads one row and writes all.
        for m in 0..self.columns {
            self.pass(m);
        }
    }
}

impl<'a> ClosedTable<'a> {
    /// The table, once it is filled.
    pub(crate) fn of(table: &'a Table) -> ClosedTable<'a>
        requires few { table.now.columns ≤ 32 }
        requires bounded { Bounded table.now.columns 257698037760000000 (at table.now.rows) }
        ensures columns { result.columns ≡ table.now.columns }
        ensures rows { result.rows.now ≡ table.now.rows }
    {
        ClosedTable {
            columns: table.columns,
            rows: &table.rows,
        }
    }
}

/// Notes a link in the row of its right column.
fn note(row: &mut Row, link: &Link)
    requires { link.now.left < 32 }
    ensures same { entry row.new link.now.left ≡ shorter (entry row.old link.now.left) (Some link.now.bound) }
    ensures other { (j : ℕ) → (j ≢ link.now.left) → entry row.new j ≡ entry row.old j }
{
    row[link.left] = shorter(row[link.left], Some(i64::from(link.bound)));
}

// The row is whole, since a row of the table is lent as it is; `columns` says how much of it counts.
// Not shared with the distances of links: there no link is a number that binds nothing, and closing stops where no values are left.
/// Shortens the leading entries of a row by way of a column that is `leg` away and leads on `through`.
fn relax(row: &mut Row, columns: usize, through: &Row, leg: Option<i64>)
    requires few { columns ≤ 32 }
    requires through { ModerateRow columns through.now }
    requires leg { Moderate leg }
    ensures { Relaxed columns row.old through.now leg row.new }
{
    // An index, not `zip`: after a `zip` over `iter_mut` nothing is known of what was written.
    for (j, known) in row[..columns].iter_mut().enumerate() {
        *known = shorter(*known, joined(leg, through[j]));
    }
}

/// The length of one walk after the other.
fn joined(leg: Option<i64>, rest: Option<i64>) -> Option<i64>
    requires leg { Moderate leg }
    requires rest { Moderate rest }
    ensures { result ≡ joined leg rest }
{
    Some(leg? + rest?)
}

/// The shorter of two lengths.
fn shorter(known: Option<i64>, other: Option<i64>) -> Option<i64>
    ensures { result ≡ shorter known other }
{
    // The usual case first: most ways that closing asks for are not there.
    match (known, other) {
        (length, None) | (None, length) => length,
        (Some(known), Some(other)) => Some(known.min(other)),
    }
}
