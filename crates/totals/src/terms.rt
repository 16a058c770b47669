//! The total and the summands of a sum, as a row.

ghost use Rattle.std.specs.Prelude.{◌≡◌, is_ok, Some, MatchResult};
ghost use Rattle.rules.specs.declared.fault.Fault.TheVariants.{ListLength};
ghost use Rattle.rules.specs.Refusals.{answer};
ghost use Rattle.totals.specs.Sums.{sum_refusal, SumJudged};
ghost use Rattle.totals.specs.Terms.{row_refusal, row_width, Holds};

use crate::check::check_sum;
use crate::reaching::MOST_SUMMANDS;
use rules::{Fault, ShortList};

/// A total and its summands, on a board of so many columns. What `check_sum` would refuse is no sum.
// No `Option` and no ghost field: rows are copied out of lists as they are, and every bit pattern means something.
#[derive(Clone, Copy)]
pub struct Terms {
    pub columns: usize,
    pub total: usize,
    pub summands: ShortList<usize, MOST_SUMMANDS>,
}

impl Terms {
    /// No sum.
    pub(crate) fn none() -> Terms
        ensures { row_refusal result ≡ Some ListLength }
    {
        Terms {
            columns: 1,
            total: 0,
            summands: ShortList::empty(0),
        }
    }

    /// Takes a total and summands, unless they are refused.
    pub(crate) fn set(
        &mut self,
        columns: usize,
        total: usize,
        summands: &[usize],
    ) -> Result<(), Fault>
        ensures value { result ≡ answer (sum_refusal columns total summands.now) }
        ensures law { SumJudged columns total summands.now (sum_refusal columns total summands.now) }
        ensures after { MatchResult result (λ _. Holds self.new columns total summands.now) (λ _. self.new ≡ self.old) }
    {
        check_sum(columns, total, summands)?;
        *self = Terms {
            columns,
            total,
            summands: ShortList::of(summands, 0)?,
        };
        Ok(())
    }

    /// Whether the row is a sum.
    pub(crate) fn is_set(&self) -> bool
        ensures { result ≡ is_ok (answer (row_refusal self.now)) }
    {
        check_sum(self.columns, self.total, self.summands.as_slice()).is_ok()
    }

    /// The number of columns that the row means.
    pub(crate) fn width(&self) -> usize
        ensures { result ≡ row_width self.now }
    {
        if self.is_set() { self.columns } else { 1 }
    }
}
