//! What is judged of a total and its summands before a sum is set.

ghost use Rattle.std.specs.Prelude.{◌≡◌, ℕ, ◌<◌, [], ◌∷◌};
ghost use Rattle.rules.specs.Refusals.{first_failing, answer};
ghost use Rattle.totals.specs.Sums.{there, first_again, sum_refusal, SumJudged};
ghost use Rattle.totals.specs.Cuts.{Columns};

use crate::reaching::MOST_SUMMANDS;
use rules::window::MOST_COLUMNS;
use rules::{Fault, Test, check_columns};

/// The test that a column is there.
#[derive(Clone, Copy)]
pub struct There {
    pub columns: usize,
}

impl Test<usize> for There {
    ghost accepts = { λ t c. there t.columns c };

    fn passes(&self, item: usize) -> bool {
        item < self.columns
    }
}

/// The index of the first summand whose column is not there.
pub(crate) fn first_summand_absent(columns: usize, summands: &[usize]) -> Option<usize>
    ensures { result ≡ first_failing (there columns) summands.now }
{
    summands.iter().position(|column| *column >= columns)
}

/// The index of the first summand whose column the total or an earlier summand names.
pub(crate) fn first_again(total: usize, summands: &[usize]) -> Option<usize>
    requires total { total < 32 }
    requires there { Columns 32 summands.now }
    ensures { result ≡ first_again (total ∷ []) summands.now }
{
    let mut seen = [false; MOST_COLUMNS];
    seen[total] = true;
    for (i, column) in summands.iter().enumerate() {
        if seen[*column] {
            return Some(i);
        }
        seen[*column] = true;
    }
    None
}

// The columns, the total and the summands are three parameters, as callers have them; `Terms` is what keeps them.
/// Refuses a number of columns outside 1 to 32 (1), then the first entry whose column is not there (2), then no summand or more than
/// 31 (9), then the first entry that names a column again (10). The entries are the total, then the summands.
pub fn check_sum(columns: usize, total: usize, summands: &[usize]) -> Result<(), Fault>
    ensures value { result ≡ answer (sum_refusal columns total summands.now) }
    ensures law { SumJudged columns total summands.now (sum_refusal columns total summands.now) }
{
    check_columns(columns)?;
    if total >= columns {
        return Err(Fault::NoColumn(0));
    }
    if let Some(at) = first_summand_absent(columns, summands) {
        return Err(Fault::NoColumn(at + 1));
    }
    // Two comparisons, and no range: the proof reads off them which side refused.
    if summands.len() < 1 || summands.len() > MOST_SUMMANDS {
        return Err(Fault::ListLength);
    }
    if let Some(at) = first_again(total, summands) {
        return Err(Fault::ColumnTwice(at + 1));
    }
    Ok(())
}
