//! Sums whose distances follow an order of the columns.

ghost use Rattle.std.specs.Prelude.{◌≡◌, true, None, MatchResult};
ghost use Rattle.rules.specs.Meaning.{tight_rule, fresh_rule};
ghost use Rattle.rules.specs.Refusals.{answer};
ghost use Rattle.totals.specs.Sums.{Kind, sum_refusal, SumJudged};
ghost use Rattle.totals.specs.Orders.{Follows};
ghost use Rattle.totals.specs.Terms.{row_refusal, row_summands, row_meaning, kind_scope};

use crate::terms::Terms;
use crate::trim::trim_total;
use differences::Distance;
use rules::{Fault, Rule, Verdict, Window, check_windows};
use std::marker::PhantomData;

/// Distances by an order of the columns that a kind of sum keeps.
// A trait, and no closure: it says which plans the kind allows.
pub trait Order: Distance + Copy {
    ghost kind: { Kind };

    /// The distances of a row that is a sum.
    fn of_sum(terms: &Terms) -> Self
        requires { row_refusal terms.now ≡ None }
        ensures { Follows terms.now.columns terms.now.total (row_summands terms.now) (kind terms.now.total (row_summands terms.now)) (Self.width result) (Self.distance result) };
}

/// Allows the plans of one kind of sum: in each the total equals the summands added up.
///
/// It is full: every value of every window that it leaves is in an allowed plan. A row that no `set` could have made means what a
/// fresh one means.
// No `Option` and no ghost field: rows are copied out of lists as they are, and every bit pattern means something.
#[derive(Clone, Copy)]
pub struct OrderedSum<D> {
    terms: Terms,
    distances: PhantomData<D>,
}

impl<D: Order> OrderedSum<D> {
    /// One column, and every plan is allowed.
    pub fn fresh() -> OrderedSum<D>
        ensures { row_meaning D.Order.kind result.terms ≡ fresh_rule }
    {
        OrderedSum {
            terms: Terms::none(),
            distances: PhantomData,
        }
    }

    /// Sets a total that equals the summands added up. A refusal leaves the rule as it was.
    ///
    /// Refused are a number of columns outside 1 to 32 (1), an entry whose column is not there (2), no summand or more than 31 (9), an
    /// entry that names a column again (10). The entries are the total, then the summands, counted from 0.
    pub fn set(&mut self, columns: usize, total: usize, summands: &[usize]) -> Result<(), Fault>
        ensures value { result ≡ answer (sum_refusal columns total summands.now) }
        ensures law { SumJudged columns total summands.now (sum_refusal columns total summands.now) }
        ensures after { MatchResult result (λ _. row_meaning D.Order.kind self.new.terms ≡ tight_rule (kind_scope D.Order.kind columns total summands.now) true) (λ _. self.new ≡ self.old) }
    {
        self.terms.set(columns, total, summands)
    }
}

impl<D: Order> Rule for OrderedSum<D> {
    ghost meaning = { λ row. row_meaning D.Order.kind row.terms };

    fn columns(&mut self) -> usize {
        self.terms.width()
    }

    fn narrow(&mut self, windows: &mut [Window]) -> Result<Verdict, Fault> {
        check_windows(self.terms.width(), windows)?;
        if !self.terms.is_set() {
            return Ok(Verdict::Open);
        }
        let terms = &self.terms;
        let distances = D::of_sum(terms);
        let summands = terms.summands.as_slice();
        Ok(trim_total(&distances, terms.total, summands, windows))
    }
}
