//! A list of rules of one kind that bind one board together.

ghost use Rattle.std.specs.Prelude.{◌≡◌, map, length, Some, None, MatchResult};
ghost use Rattle.layers.specs.Joining.{joint};
ghost use Rattle.layers.specs.Each.{each_refusal};

use crate::asking::ask;
use crate::joining::InTurn;
use rules::{Fault, Rule, Verdict, Window};

/// The largest number of rules in a list.
pub const MOST_RULES: usize = 64;

/// Allows what each rule of a list allows. Its number of columns is the largest of theirs, and a rule with fewer binds the leading
/// ones. An empty list has one column and allows every plan.
///
/// It asks them in turn until one is void, or until a whole turn changes no window. Each rule is copied out to be asked, so the notes
/// that it makes do not last.
#[derive_where(Clone, Copy)]
pub struct Each<'a, R> {
    rules: &'a [R],
}

impl<'a, R> Each<'a, R> {
    /// The rules of the list together. More than 64 are refused (9).
    pub fn of(rules: &'a [R]) -> Result<Each<'a, R>, Fault>
        ensures { MatchResult result (λ e. (each_refusal (length rules.now) ≡ None) × (e.rules.now ≡ rules.now)) (λ f. each_refusal (length rules.now) ≡ Some f) }
    {
        if rules.len() > MOST_RULES {
            return Err(Fault::ListLength);
        }
        Ok(Each { rules })
    }
}

impl<'a, R: Rule + Copy> InTurn for Each<'a, R> {
    ghost meanings = { λ s. map R.Rule.meaning s.rules.now };

    fn turn(&mut self, windows: &mut [Window]) -> Verdict {
        for lent in self.rules {
            let mut copy = *lent;
            if let Verdict::Void = ask(&mut copy, windows) {
                return Verdict::Void;
            }
        }
        Verdict::Open
    }
}

impl<'a, R: Rule + Copy> Rule for Each<'a, R> {
    ghost meaning = { λ s. joint (map R.Rule.meaning s.rules.now) };

    fn columns(&mut self) -> usize {
        self.rules.iter().fold(1, |most, rule| {
            let mut copy = *rule;
            most.max(copy.columns())
        })
    }

    fn narrow(&mut self, windows: &mut [Window]) -> Result<Verdict, Fault> {
        let columns = self.columns();
        self.narrow_together(columns, windows)
    }
}
