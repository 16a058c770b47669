//! The rule, and the note that it keeps.

ghost use Rattle.std.specs.Prelude.{◌≡◌, ◌+◌, ◌≤◌, min, true, MatchResult};
ghost use Rattle.rules.specs.Refusals.{answer};
ghost use Rattle.rules.specs.Meaning.{fresh_scope, Narrowed};
ghost use Rattle.depot.specs.Quarters.{claims_nothing, starting, hours_refusal, HoursJudged};
ghost use Rattle.depot.specs.Hours.{column_there, quarter_meaning};

use crate::hours::Hours;
use rules::{Fault, Rule, Verdict, Window, check_windows};

/// One column starts only on the quarter hour, and only while the depot is open.
///
/// It claims nothing of its trims. Beside its meaning it keeps a note: how often it was asked.
#[derive(Clone, Copy)]
pub struct QuarterHours {
    columns: usize,
    hours: Option<Hours>,
    asked: u32,
    ghost some: { 1 ≤ columns },
    ghost few: { columns ≤ 32 },
    ghost there: { column_there columns hours ≡ true },
}

impl QuarterHours {
    /// One column, and every plan is allowed. It was never asked.
    pub fn fresh() -> QuarterHours
        ensures meaning { quarter_meaning result.columns result.hours ≡ claims_nothing fresh_scope }
        ensures note { result.asked ≡ 0 }
    {
        QuarterHours {
            columns: 1,
            hours: None,
            asked: 0,
        }
    }

    /// Binds column `column` of `columns` columns to the quarter hours from the minute `opens` to the minute `closes`.
    /// A refusal leaves the rule as it was, and its note stays in any case.
    ///
    /// Refused are, all at place 0: a number of columns outside 1 to 32 (1), a column that is not there (2), and hours that close
    /// before they open (3).
    pub fn set(
        &mut self,
        columns: usize,
        column: usize,
        opens: u32,
        closes: u32,
    ) -> Result<(), Fault>
        ensures value { result ≡ answer (hours_refusal columns column opens closes) }
        ensures law { HoursJudged columns column opens closes (hours_refusal columns column opens closes) }
        ensures after { MatchResult result (λ _. quarter_meaning self.new.columns self.new.hours ≡ claims_nothing (record { width = columns; allows = starting column opens closes })) (λ _. self.new ≡ self.old) }
        ensures note { self.new.asked ≡ self.old.asked }
    {
        let hours = Hours {
            column,
            opens,
            closes,
        };
        hours.check(columns)?;
        self.columns = columns;
        self.hours = Some(hours);
        Ok(())
    }

    /// How often the rule was asked to narrow windows.
    pub fn asked(&self) -> u32
        ensures { result ≡ self.now.asked }
    {
        self.asked
    }
}

impl Rule for QuarterHours {
    ghost meaning = { λ s. quarter_meaning s.columns s.hours };

    /// Beyond the interface it promises that the note stays.
    fn columns(&mut self) -> usize
        ensures same { quarter_meaning self.new.columns self.new.hours ≡ quarter_meaning self.old.columns self.old.hours }
        ensures value { result ≡ self.old.columns }
        ensures few { (1 ≤ result) × (result ≤ 32) }
        ensures note { self.new.asked ≡ self.old.asked }
    {
        self.columns
    }

    /// Beyond the interface it promises its note: one more for each time that it is asked, up to the largest count.
    fn narrow(&mut self, windows: &mut [Window]) -> Result<Verdict, Fault>
        ensures same { quarter_meaning self.new.columns self.new.hours ≡ quarter_meaning self.old.columns self.old.hours }
        ensures outcome { Narrowed (quarter_meaning self.old.columns self.old.hours) windows.old result windows.new }
        ensures note { self.new.asked ≡ min (self.old.asked + 1) 4294967295 }
    {
        self.asked = self.asked.saturating_add(1);
        check_windows(self.columns, windows)?;
        match self.hours {
            None => Ok(Verdict::Open),
            Some(hours) => Ok(hours.cut(windows)),
        }
    }
}
