//! The rule of a list of links.

ghost use Rattle.std.specs.Prelude.{◌≡◌, ◌≤◌, true, List, ℤ};
ghost use Rattle.rules.specs.Plans.{lies};
ghost use Rattle.rules.specs.ShortLists.{listed};
ghost use Rattle.differences.specs.Links.{all_linked};
ghost use Rattle.differences.specs.Distances.{all_values, allowed_by, width_of};

use crate::check::MOST_LINKS;
use crate::distances::Distances;
use crate::link::Link;
use rules::ShortList;

pub mod rule;

/// Links between the columns of a board: every plan that keeps all of them is allowed.
///
/// Beside the links it keeps their closed table, or none where no plan of values keeps them.
#[derive(Clone, Copy)]
pub struct Links {
    columns: usize,
    links: ShortList<Link, MOST_LINKS>,
    distances: Option<Distances>,
    ghost some: { 1 ≤ columns },
    ghost few: { columns ≤ 32 },
    ghost wide: { width_of columns distances ≡ columns },
    ghost same: { (x : List ℤ) → lies x (all_values columns) ≡ true → all_linked (listed links) x ≡ allowed_by distances x },
}
