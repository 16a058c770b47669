//! Sums whose summands never fall.

ghost use Rattle.totals.specs.Rising.{rising_sum};

use crate::chain::Chain;
use crate::order::{Order, OrderedSum};
use crate::terms::Terms;

/// Allows the plans in which the total equals the summands added up and the summands, in the order given, never fall.
///
/// `set` takes the total, and the summands in the order in which they never fall.
pub type RisingSum = OrderedSum<Chain>;

impl Order for Chain {
    ghost kind = { rising_sum };

    fn of_sum(terms: &Terms) -> Chain {
        Chain::of(terms.columns, terms.summands.as_slice())
    }
}
