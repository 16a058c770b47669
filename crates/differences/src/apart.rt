//! Two columns that stay a gap or more apart.

ghost use Rattle.std.specs.Prelude.{◌≡◌, true, false, length, is_ok, MatchResult, ◌≢◌};
ghost use Rattle.rules.specs.Meaning.{tight_rule, fresh_rule};
ghost use Rattle.rules.specs.Plans.{all_lawful};
ghost use Rattle.rules.specs.Enumeration.{Leaves};
ghost use Rattle.rules.specs.Refusals.{answer};
ghost use Rattle.rules.specs.Trims.{verdict_left};
ghost use Rattle.differences.specs.Apart.{There, InRange, apart, apart_scope, apart_refusal, ApartJudged, apart_meaning};

use crate::pairs::keep_apart;
use rules::{Fault, Rule, Verdict, Window, check_columns, check_windows};

/// The smallest gap, and the largest.
pub const LEAST_GAP: i32 = 1;

pub const MOST_GAP: i32 = 60_000_000;

/// Allows the plans in which column `one` is at most column `other` less the gap, or column `other` at most column `one` less it.
///
/// It is tight: both ends of every window that it leaves are in allowed plans. A row that no `set` could have made means what a
/// fresh one means.
// No `Option` and no ghost field: rows are copied out of lists as they are, and every bit pattern means something.
#[derive(Clone, Copy)]
pub struct Apart {
    columns: usize,
    one: usize,
    other: usize,
    gap: i32,
}

impl Apart {
    /// One column, and every plan is allowed.
    pub fn fresh() -> Apart
        ensures { apart_meaning result ≡ fresh_rule }
    {
        Apart {
            columns: 1,
            one: 0,
            other: 0,
            gap: 0,
        }
    }

    /// Keeps the columns `one` and `other` of `columns` columns a gap apart. A refusal leaves the rule as it was.
    ///
    /// Refused are, all at place 0: a number of columns outside 1 to 32 (1), a column that is not there (2), one column named twice
    /// (10), a gap outside 1 to 60,000,000 (11).
    pub fn set(&mut self, columns: usize, one: usize, other: usize, gap: i32) -> Result<(), Fault>
        ensures value { result ≡ answer (apart_refusal columns one other gap) }
        ensures law { ApartJudged columns one other gap (apart_refusal columns one other gap) }
        ensures after { MatchResult result (λ _. apart_meaning self.new ≡ tight_rule (apart_scope columns one other gap) false) (λ _. self.new ≡ self.old) }
    {
        let row = Apart {
            columns,
            one,
            other,
            gap,
        };
        row.check()?;
        *self = row;
        Ok(())
    }

    /// Judges what the row holds.
    fn check(&self) -> Result<(), Fault>
        ensures { result ≡ answer (apart_refusal self.now.columns self.now.one self.now.other self.now.gap) }
    {
        check_columns(self.columns)?;
        if self.one >= self.columns || self.other >= self.columns {
            return Err(Fault::NoColumn(0));
        }
        if self.one == self.other {
            return Err(Fault::ColumnTwice(0));
        }
        if !(LEAST_GAP..=MOST_GAP).contains(&self.gap) {
            return Err(Fault::OutOfRange(0));
        }
        Ok(())
    }

    /// Whether a `set` could have made the row.
    fn is_set(&self) -> bool
        ensures { result ≡ is_ok (answer (apart_refusal self.now.columns self.now.one self.now.other self.now.gap)) }
    {
        self.check().is_ok()
    }

    /// The number of columns that the row means.
    fn width(&self) -> usize
        ensures { result ≡ (apart_meaning self.now).scope.width }
    {
        if self.is_set() { self.columns } else { 1 }
    }

    /// Cuts the windows of the two columns down to what the gap leaves of them. `Void` leaves them as they were.
    fn cut(&self, windows: &mut [Window]) -> Verdict
        requires lawful { all_lawful windows.old ≡ true }
        requires there { There (length windows.old) self.now.one self.now.other }
        requires two { self.now.one ≢ self.now.other }
        requires range { InRange self.now.gap }
        ensures left { Leaves (apart self.now.one self.now.other self.now.gap) windows.old (verdict_left result windows.new) }
        ensures stays { result ≡ Verdict.Void → windows.new ≡ windows.old }
    {
        match keep_apart(windows[self.one], windows[self.other], self.gap) {
            Some((v, w)) => {
                windows[self.one] = v;
                windows[self.other] = w;
                Verdict::Open
            }
            None => Verdict::Void,
        }
    }
}

impl Rule for Apart {
    ghost meaning = { apart_meaning };

    fn columns(&mut self) -> usize {
        self.width()
    }

    fn narrow(&mut self, windows: &mut [Window]) -> Result<Verdict, Fault> {
        check_windows(self.width(), windows)?;
        if !self.is_set() {
            return Ok(Verdict::Open);
        }
        Ok(self.cut(windows))
    }
}
