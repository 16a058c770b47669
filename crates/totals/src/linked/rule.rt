//! Setting a sum with links, and trimming by it.

ghost use Rattle.std.specs.Prelude.{◌≡◌, true, MatchResult};
ghost use Rattle.rules.specs.Meaning.{tight_rule, fresh_rule};
ghost use Rattle.totals.specs.Linked.{linked_refusal, linked_scope, LinkedJudged, LinkedChecked};
ghost use Rattle.totals.specs.LinkedRows.{linked_meaning};

use crate::linked::LinkedSum;
use crate::linked::check::check_linked;
use crate::terms::Terms;
use crate::trim::trim_total;
use differences::{Link, Links};
use rules::{Fault, Rule, Verdict, Window, check_windows};

impl LinkedSum {
    /// One column, and every plan is allowed.
    pub fn fresh() -> LinkedSum
        ensures { linked_meaning result ≡ fresh_rule }
    {
        LinkedSum {
            terms: Terms::none(),
            links: Links::fresh(),
        }
    }

    /// Sets a total that equals the summands added up, and links between columns other than the total. A refusal, which is that of
    /// `check_linked`, leaves the rule as it was.
    pub fn set(
        &mut self,
        columns: usize,
        total: usize,
        summands: &[usize],
        links: &[Link],
    ) -> Result<(), Fault>
        ensures value { LinkedChecked columns total summands.now links.now result }
        ensures law { LinkedJudged columns total summands.now links.now (linked_refusal columns total summands.now links.now) }
        ensures after { MatchResult result (λ _. linked_meaning self.new ≡ tight_rule (linked_scope columns total summands.now links.now) true) (λ _. self.new ≡ self.old) }
    {
        check_linked(columns, total, summands, links)?;
        let mut kept = Links::fresh();
        kept.set(columns, links)?;
        let mut terms = Terms::none();
        terms.set(columns, total, summands)?;
        *self = LinkedSum { terms, links: kept };
        Ok(())
    }
}

impl Rule for LinkedSum {
    ghost meaning = { linked_meaning };

    fn columns(&mut self) -> usize {
        self.terms.width()
    }

    fn narrow(&mut self, windows: &mut [Window]) -> Result<Verdict, Fault> {
        check_windows(self.terms.width(), windows)?;
        if !self.terms.is_set() {
            return Ok(Verdict::Open);
        }
        let terms = &self.terms;
        match self.links.distances() {
            None => Ok(Verdict::Void),
            Some(distances) => {
                Ok(trim_total(distances, terms.total, terms.summands.as_slice(), windows))
            }
        }
    }
}
