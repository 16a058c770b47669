//! Two rules that bind one board together.

ghost use Rattle.std.specs.Prelude.{◌≡◌, [], ◌∷◌};
ghost use Rattle.layers.specs.Both.{both_meaning};

use crate::asking::ask;
use crate::joining::InTurn;
use rules::{Fault, Rule, Verdict, Window};

/// Allows what both of its rules allow. The one with fewer columns binds the leading ones.
///
/// It asks them in turn until one is void, or until a whole turn changes no window.
#[derive(Clone, Copy, Drop)]
pub struct Both<A, B> {
    first: A,
    second: B,
}

impl<A, B> Both<A, B> {
    /// The two rules together.
    pub fn of(first: A, second: B) -> Both<A, B>
        ensures first { result.first ≡ first }
        ensures second { result.second ≡ second }
    {
        Both { first, second }
    }
}

impl<A: Rule, B: Rule> InTurn for Both<A, B> {
    ghost meanings = { λ s. A.Rule.meaning s.first ∷ B.Rule.meaning s.second ∷ [] };

    fn turn(&mut self, windows: &mut [Window]) -> Verdict {
        match ask(&mut self.first, windows) {
            Verdict::Open => ask(&mut self.second, windows),
            Verdict::Void => Verdict::Void,
        }
    }
}

impl<A: Rule, B: Rule> Rule for Both<A, B> {
    ghost meaning = { λ s. both_meaning (A.Rule.meaning s.first) (B.Rule.meaning s.second) };

    fn columns(&mut self) -> usize {
        self.first.columns().max(self.second.columns())
    }

    fn narrow(&mut self, windows: &mut [Window]) -> Result<Verdict, Fault> {
        let columns = self.columns();
        self.narrow_together(columns, windows)
    }
}
