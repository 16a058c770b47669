//! A rule below a layer, asked on the leading windows.

ghost use Rattle.std.specs.Prelude.{◌≡◌, ◌≤◌, true, length, None, Ok};
ghost use Rattle.rules.specs.Plans.{all_lawful};
ghost use Rattle.rules.specs.Refusals.{window_refusal};
ghost use Rattle.rules.specs.Meaning.{Narrowed};
ghost use Rattle.layers.specs.Leading.{on_leading};

use rules::{Rule, Verdict, Window};

/// Asks a rule on the leading windows, as many as it has columns. The windows after them stay.
pub(crate) fn ask<R: Rule>(rule: &mut R, windows: &mut [Window]) -> Verdict
    requires lawful { all_lawful windows.old ≡ true }
    requires room { (R.Rule.meaning rule.old).scope.width ≤ length windows.old }
    ensures same { R.Rule.meaning rule.new ≡ R.Rule.meaning rule.old }
    ensures outcome { Narrowed (on_leading (length windows.old) (R.Rule.meaning rule.old)) windows.old (Ok result) windows.new }
{
    let columns = rule.columns();
    rule.narrow(&mut windows[0..columns]).unwrap()
}

// Not `ask`: what that ensures is about leading windows and others after them, and here there are no others.
/// Asks a rule on windows in its own number.
pub(crate) fn ask_all<R: Rule>(rule: &mut R, windows: &mut [Window]) -> Verdict
    requires { window_refusal (R.Rule.meaning rule.old).scope.width windows.old ≡ None }
    ensures same { R.Rule.meaning rule.new ≡ R.Rule.meaning rule.old }
    ensures outcome { Narrowed (R.Rule.meaning rule.old) windows.old (Ok result) windows.new }
{
    rule.narrow(windows).unwrap()
}
