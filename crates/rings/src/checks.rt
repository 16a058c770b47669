//! The refusals of links that a sum cannot take: a ring below 0, and two tied summands.

ghost use Rattle.rings.specs.Rings.{RingsChecked};

use crate::walks::{ClosedTable, Table};
use differences::{Link, check_links};
use rules::Fault;

/// Refuses links that `Links::set` would refuse, then a ring below 0 (12, at the smallest column on such a ring), then two of the
/// summands that a ring of length 0 ties (13, at the smallest tied summand).
pub fn check_rings(columns: usize, links: &[Link], summands: &[usize]) -> Result<(), Fault>
    ensures { RingsChecked columns links.now summands.now result }
{
    check_links(columns, links)?;
    let mut table = Table::blank(columns);
    table.fill(links);
    let table = ClosedTable::of(&table);
    if let Some(column) = table.first_on_ring() {
        return Err(Fault::NegativeRing(column));
    }
    if let Some(column) = table.first_tied(summands) {
        return Err(Fault::TiedSummands(column));
    }
    Ok(())
}
