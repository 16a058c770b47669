//! A rule with every sign turned.

ghost use Rattle.std.specs.Prelude.{◌≡◌, true, map};
ghost use Rattle.rules.specs.Plans.{lawful, all_lawful};
ghost use Rattle.layers.specs.Mirror.{mirrored, mirror_meaning};

use crate::asking::ask_all;
use rules::{Fault, Rule, Verdict, Window, check_windows};

/// Allows a plan when its rule allows the plan with every sign turned.
///
/// The windows are turned, the rule is asked on them, and they are turned back. It is as tight and as full as its rule.
#[derive(Clone, Copy, Drop)]
pub struct Mirror<R> {
    rule: R,
}

impl<R> Mirror<R> {
    /// The rule with every sign turned.
    pub fn of(rule: R) -> Mirror<R>
        ensures { result.rule ≡ rule }
    {
        Mirror { rule }
    }
}

impl<R: Rule> Rule for Mirror<R> {
    ghost meaning = { λ s. mirror_meaning (R.Rule.meaning s.rule) };

    fn columns(&mut self) -> usize {
        self.rule.columns()
    }

    fn narrow(&mut self, windows: &mut [Window]) -> Result<Verdict, Fault> {
        check_windows(self.rule.columns(), windows)?;
        turn(windows);
        let verdict = ask_all(&mut self.rule, windows);
        turn(windows);
        Ok(verdict)
    }
}

/// Turns the sign of every value in the windows.
fn turn(windows: &mut [Window])
    requires { all_lawful windows.old ≡ true }
    ensures { windows.new ≡ map mirrored windows.old }
{
    for window in windows.iter_mut() {
        *window = opposite(*window);
    }
}

// Any two numbers make a `Window`, so that it is lawful stands in contracts, and not in its type.
/// The window of the values with their signs turned.
fn opposite(window: Window) -> Window
    requires { lawful window ≡ true }
    ensures { result ≡ mirrored window }
{
    Window {
        first: -window.last,
        last: -window.first,
    }
}
