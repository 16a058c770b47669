//! A rule asked from outside, with what follows from its contract.

ghost use Rattle.std.specs.Prelude.{◌≡◌, Bool, List, ℤ};
ghost use Rattle.rules.specs.Meaning.{Narrowed};
ghost use Rattle.rules.specs.Enumeration.{Enumerates};
ghost use Rattle.rules.specs.Trims.{Exact, Rests};

use crate::fault::Fault;
use crate::rule::Rule;
use crate::verdict::Verdict;
use crate::window::Window;

/// Asks a rule to narrow the windows.
///
/// Beyond the interface it says what a tight rule leaves, as an equation: the hull of the allowed plans in the windows, found by
/// going through them all. And no rule at all strikes an end that an allowed plan has. `enumeration` says what the hull is.
pub fn trim<R: Rule>(rule: &mut R, windows: &mut [Window]) -> Result<Verdict, Fault>
    ensures same { R.Rule.meaning rule.new ≡ R.Rule.meaning rule.old }
    ensures outcome { Narrowed (R.Rule.meaning rule.old) windows.old result windows.new }
    ensures exact { Exact (R.Rule.meaning rule.old) windows.old result windows.new }
    ensures rests { Rests (R.Rule.meaning rule.old) windows.old result windows.new }
    ensures enumeration { (A : List ℤ → Bool) (ws : List Window) → Enumerates A ws }
{
    // Its contract says that the rule has a column, which the equation needs.
    let _ = rule.columns();
    rule.narrow(windows)
}
