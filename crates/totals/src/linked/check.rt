//! What is judged of a total, its summands and links before a linked sum is set.

ghost use Rattle.std.specs.Prelude.{◌≡◌, ◌<◌, length};
ghost use Rattle.rules.specs.Refusals.{first_failing};
ghost use Rattle.totals.specs.Cuts.{Columns};
ghost use Rattle.totals.specs.Linked.{other_columns, link_entry, first_absent, first_repeated, linked_refusal, LinkedJudged, LinkedChecked};

use crate::check::{first_again, first_summand_absent};
use crate::reaching::MOST_SUMMANDS;
use differences::Link;
use differences::check::{MOST_LINKS, first_absent, first_unbounded};
use rings::check_rings;
use rules::{Fault, Test, check_columns};

/// The link joins two columns other than the total.
fn joins_others(link: &Link, total: usize) -> bool
    ensures { result ≡ other_columns total link.now }
{
    link.has_two_columns() && link.left != total && link.right != total
}

/// The test that a link joins two columns other than the total.
#[derive(Clone, Copy)]
pub struct OtherColumns {
    pub total: usize,
}

impl Test<Link> for OtherColumns {
    ghost accepts = { λ s l. other_columns s.total l };

    fn passes(&self, item: Link) -> bool {
        joins_others(&item, self.total)
    }
}

/// The index of the first link of a column with itself or with the total.
fn first_repeating(total: usize, links: &[Link]) -> Option<usize>
    ensures { result ≡ first_failing (other_columns total) links.now }
{
    links.iter().position(|link| !joins_others(link, total))
}

/// The entries of a sum with links: the total, the summands, then the links.
#[derive(Clone, Copy)]
struct Entries<'a> {
    columns: usize,
    total: usize,
    summands: &'a [usize],
    links: &'a [Link],
}

impl<'a> Entries<'a> {
    /// The entry of link `at`.
    fn link_entry(&self, at: usize) -> usize
        requires { at < length self.now.links.now }
        ensures { result ≡ link_entry self.now.summands.now at }
    {
        1 + self.summands.len() + at
    }

    /// The first entry that names a column that is not there.
    fn first_absent(&self) -> Option<usize>
        ensures { result ≡ first_absent self.now.columns self.now.total self.now.summands.now self.now.links.now }
    {
        let columns = self.columns;
        if self.total >= columns {
            return Some(0);
        }
        if let Some(at) = first_summand_absent(columns, self.summands) {
            return Some(at + 1);
        }
        let at = first_absent(columns, self.links)?;
        Some(self.link_entry(at))
    }

    /// The first entry that names a column again.
    fn first_repeated(&self) -> Option<usize>
        requires total { self.now.total < 32 }
        requires there { Columns 32 self.now.summands.now }
        ensures { result ≡ first_repeated self.now.total self.now.summands.now self.now.links.now }
    {
        let total = self.total;
        if let Some(at) = first_again(total, self.summands) {
            return Some(at + 1);
        }
        let at = first_repeating(total, self.links)?;
        Some(self.link_entry(at))
    }
}

/// Refuses a number of columns outside 1 to 32 (1), then the first entry that names a column that is not there (2), then no summand,
/// more than 31, or more than 256 links (9), then the first entry that names a column again (10: for a link, its own or the total),
/// then the first bound out of range (11), then a ring below 0 (12, at the smallest column on such a ring), then two tied summands
/// (13, at the smallest). The entries are the total, the summands, then the links.
pub fn check_linked(
    columns: usize,
    total: usize,
    summands: &[usize],
    links: &[Link],
) -> Result<(), Fault>
    ensures value { LinkedChecked columns total summands.now links.now result }
    ensures law { LinkedJudged columns total summands.now links.now (linked_refusal columns total summands.now links.now) }
{
    // Not by `check_sum` first: a column of a link that is not there (2) goes before the number of summands (9).
    check_columns(columns)?;
    let entries = Entries {
        columns,
        total,
        summands,
        links,
    };
    if let Some(at) = entries.first_absent() {
        return Err(Fault::NoColumn(at));
    }
    // Comparisons, and no range: the proof reads off them which one refused.
    if summands.len() < 1 || summands.len() > MOST_SUMMANDS || links.len() > MOST_LINKS {
        return Err(Fault::ListLength);
    }
    if let Some(at) = entries.first_repeated() {
        return Err(Fault::ColumnTwice(at));
    }
    if let Some(at) = first_unbounded(links) {
        return Err(Fault::OutOfRange(entries.link_entry(at)));
    }
    check_rings(columns, links, summands)
}
