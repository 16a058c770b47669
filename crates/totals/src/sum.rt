//! Sums.

ghost use Rattle.totals.specs.Sums.{sums};

use crate::order::{Order, OrderedSum};
use crate::terms::Terms;
use crate::unlinked::Unlinked;

/// Allows the plans in which the total equals the summands added up.
pub type Sum = OrderedSum<Unlinked>;

impl Order for Unlinked {
    ghost kind = { sums };

    fn of_sum(terms: &Terms) -> Unlinked {
        Unlinked::of(terms.columns)
    }
}
