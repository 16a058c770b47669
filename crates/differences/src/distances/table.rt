//! The table of a list of links.

ghost use Rattle.std.specs.Prelude.{◌≡◌, [], None, Ok};
ghost use Rattle.differences.specs.Links.{links_refusal};
ghost use Rattle.differences.specs.Distances.{distance_of, Tabled, Made};

use crate::check::check_links;
use crate::distance::Distance;
use crate::distances::Distances;
use crate::distances::closing::{close, enter, unlinked};
use crate::link::{FARTHEST, Link};
use rules::Fault;

impl Distances {
    /// The table that no link binds, of one column.
    pub fn fresh() -> Distances
        ensures { Tabled 1 [] result }
    {
        let rows = unlinked();
        Distances { columns: 1, rows }
    }

    /// The table of the links, or `None` where no plan of values keeps them.
    pub fn of_links(columns: usize, links: &[Link]) -> Result<Option<Distances>, Fault>
        ensures { Made columns links.now result }
    {
        check_links(columns, links)?;
        Ok(closed(columns, links))
    }
}

// That the links were judged is a clause, here and of walks along links: callers bring links in a list of their own.
/// The table of links that were judged, or `None` where no plan of values keeps them.
fn closed(columns: usize, links: &[Link]) -> Option<Distances>
    requires { links_refusal columns links.now ≡ None }
    ensures { Made columns links.now (Ok result) }
{
    let mut rows = unlinked();
    enter(&mut rows, columns, links);
    close(&mut rows[..columns])?;
    Some(Distances { columns, rows })
}

impl Distance for Distances {
    ghost width = { λ t. t.columns };

    ghost distance = { distance_of };

    fn columns(&self) -> usize {
        self.columns
    }

    fn between(&self, i: usize, j: usize) -> i32 {
        if i < self.columns && j < self.columns {
            self.rows[i][j]
        } else {
            FARTHEST
        }
    }
}
