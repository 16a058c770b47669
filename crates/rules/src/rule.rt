//! The interface of rules.

ghost use Rattle.std.specs.Prelude.{◌≡◌, ◌≤◌};
ghost use Rattle.rules.specs.Meaning.{Meaning, Narrowed};

use crate::fault::Fault;
use crate::verdict::Verdict;
use crate::window::Window;

/// A rule binds the columns of a board.
///
/// Its meaning is a number of columns, 1 to 32, and a set of allowed plans; neither ever changes. A rule may keep notes beside
/// its meaning, so both functions take it by `&mut`.
pub trait Rule {
    ghost meaning: { Self → Meaning };

    /// The number of columns.
    fn columns(&mut self) -> usize
        ensures same { meaning self.new ≡ meaning self.old }
        ensures value { result ≡ (meaning self.old).scope.width }
        ensures few { (1 ≤ result) × (result ≤ 32) };

    /// Cuts the windows down by the allowed plans. A refusal and `Void` leave them as they were.
    fn narrow(&mut self, windows: &mut [Window]) -> Result<Verdict, Fault>
        ensures same { meaning self.new ≡ meaning self.old }
        ensures outcome { Narrowed (meaning self.old) windows.old result windows.new };
}

/// A rule that is lent is a rule: a layer can hold one below it by value or by `&mut`.
impl<'a, R: Rule> Rule for &'a mut R {
    ghost meaning = { λ r. R.Rule.meaning r.now };

    fn columns(&mut self) -> usize {
        (**self).columns()
    }

    fn narrow(&mut self, windows: &mut [Window]) -> Result<Verdict, Fault> {
        (**self).narrow(windows)
    }
}
