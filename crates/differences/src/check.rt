//! What is judged of a list of links before it is set.

ghost use Rattle.std.specs.Prelude.{◌≡◌};
ghost use Rattle.rules.specs.Refusals.{first_failing, answer};
ghost use Rattle.differences.specs.Links.{present, two_columns, bounded, links_refusal, LinksJudged};

use crate::link::Link;
use rules::{Fault, Test, check_columns};

/// A rule holds at most so many links.
pub const MOST_LINKS: usize = 256;

/// The test that both columns of a link are there.
#[derive(Clone, Copy)]
pub struct Present {
    pub columns: usize,
}

impl Test<Link> for Present {
    ghost accepts = { λ t l. present t.columns l };

    fn passes(&self, item: Link) -> bool {
        item.is_present(self.columns)
    }
}

/// The test that a link joins two columns.
#[derive(Clone, Copy)]
pub struct TwoColumns;

impl Test<Link> for TwoColumns {
    ghost accepts = { λ _ l. two_columns l };

    fn passes(&self, item: Link) -> bool {
        item.has_two_columns()
    }
}

/// The test that the bound of a link is in its range.
#[derive(Clone, Copy)]
pub struct Bounded;

impl Test<Link> for Bounded {
    ghost accepts = { λ _ l. bounded l };

    fn passes(&self, item: Link) -> bool {
        item.is_bounded()
    }
}

/// The index of the first link that names a column that is not there.
pub fn first_absent(columns: usize, links: &[Link]) -> Option<usize>
    ensures { result ≡ first_failing (present columns) links.now }
{
    links.iter().position(|link| !link.is_present(columns))
}

/// The index of the first link of a column with itself.
fn first_of_one_column(links: &[Link]) -> Option<usize>
    ensures { result ≡ first_failing two_columns links.now }
{
    links.iter().position(|link| !link.has_two_columns())
}

/// The index of the first link whose bound is out of range.
pub fn first_unbounded(links: &[Link]) -> Option<usize>
    ensures { result ≡ first_failing bounded links.now }
{
    links.iter().position(|link| !link.is_bounded())
}

/// Refuses a number of columns outside 1 to 32 (1), then the first link that names a column that is not there (2), then more than
/// 256 links (9), then the first link of a column with itself (10), then the first bound out of range (11).
pub fn check_links(columns: usize, links: &[Link]) -> Result<(), Fault>
    ensures value { result ≡ answer (links_refusal columns links.now) }
    ensures law { LinksJudged columns links.now (links_refusal columns links.now) }
{
    check_columns(columns)?;
    if let Some(at) = first_absent(columns, links) {
        return Err(Fault::NoColumn(at));
    }
    if links.len() > MOST_LINKS {
        return Err(Fault::ListLength);
    }
    if let Some(at) = first_of_one_column(links) {
        return Err(Fault::ColumnTwice(at));
    }
    if let Some(at) = first_unbounded(links) {
        return Err(Fault::OutOfRange(at));
    }
    Ok(())
}
