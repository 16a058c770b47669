//! A rule on shifted columns.

ghost use Rattle.std.specs.Prelude.{◌≡◌, [], MatchResult};
ghost use Rattle.std.specs.List.{list_all};
ghost use Rattle.rules.specs.Plans.{lawful};
ghost use Rattle.rules.specs.Refusals.{answer};
ghost use Rattle.layers.specs.Offset.{offset_meaning, offset_refusal, OffsetJudged};
ghost use Rattle.layers.specs.Shifts.{shifts_of};

use crate::asking::ask_all;
use crate::shifts::Shifts;
use crate::shifts::setting::check_shifts;
use rules::window::ROOM;
use rules::{Fault, Rule, Verdict, Window, check_windows};

/// The largest shift, up or down.
pub const MOST_SHIFT: i32 = 60_000_000;

/// Adds a shift to each column of its rule: allows a plan when every shifted number is a value, and its rule allows the shifted plan.
///
/// The windows are shifted and cut to the values, the rule is asked on them, and they are shifted back. It is as tight and as full as
/// its rule.
#[derive(Clone, Copy, Drop)]
pub struct Offset<R> {
    rule: R,
    shifts: Shifts,
}

impl<R> Offset<R> {
    /// The rule with every shift 0.
    pub fn of(rule: R) -> Offset<R>
        ensures below { result.rule ≡ rule }
        ensures none { shifts_of result.shifts ≡ [] }
    {
        Offset {
            rule,
            shifts: Shifts::none(),
        }
    }
}

impl<R: Rule> Offset<R> {
    /// Sets the shifts of the leading columns; those of the others are 0. A refusal leaves the rule as it was.
    ///
    /// Refused are more shifts than columns (9), and then the first shift outside -60,000,000 to 60,000,000 (11, at its index).
    pub fn set(&mut self, shifts: &[i32]) -> Result<(), Fault>
        ensures value { result ≡ answer (offset_refusal (R.Rule.meaning self.old.rule).scope.width shifts.now) }
        ensures law { OffsetJudged (R.Rule.meaning self.old.rule).scope.width shifts.now (offset_refusal (R.Rule.meaning self.old.rule).scope.width shifts.now) }
        ensures below { R.Rule.meaning self.new.rule ≡ R.Rule.meaning self.old.rule }
        ensures after { MatchResult result (λ _. offset_meaning (R.Rule.meaning self.new.rule) (shifts_of self.new.shifts) ≡ offset_meaning (R.Rule.meaning self.old.rule) shifts.now) (λ _. self.new.shifts ≡ self.old.shifts) }
    {
        check_shifts(self.rule.columns(), shifts)?;
        self.shifts = Shifts::of(shifts)?;
        Ok(())
    }
}

impl<R: Rule> Rule for Offset<R> {
    ghost meaning = { λ s. offset_meaning (R.Rule.meaning s.rule) (shifts_of s.shifts) };

    fn columns(&mut self) -> usize {
        self.rule.columns()
    }

    fn narrow(&mut self, windows: &mut [Window]) -> Result<Verdict, Fault> {
        check_windows(self.rule.columns(), windows)?;
        let mut room = ROOM;
        let below = &mut room[..windows.len()];
        self.shifts.lower(windows, below);
        if !are_lawful(below) {
            return Ok(Verdict::Void);
        }
        let verdict = ask_all(&mut self.rule, below);
        if let Verdict::Open = verdict {
            self.shifts.raise(below, windows);
        }
        Ok(verdict)
    }
}

/// Every window is lawful.
fn are_lawful(windows: &[Window]) -> bool
    ensures { result ≡ list_all lawful windows.now }
{
    windows.iter().all(|window| window.is_lawful())
}
