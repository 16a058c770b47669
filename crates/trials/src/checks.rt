//! Checks with a known outcome, and how many of them went wrong.

use crate::compare::{BOARDS, Claim, Comparison, Trial};
use crate::outcome::{Outcome, Setting, Trimming};
use crate::random::Random;
use crate::table::{Line, SetByEntries};
use crate::windows::Shown;
use crate::words::Words;
use anyhow::ensure;
use rules::{Fault, Rule};
use std::alloc::{AllocError, Global};
use std::{fmt, io};

/// Windows that a rule of two columns has to refuse.
pub const REFUSED: &str = "
first above last       | | |          0 9, 5 4 | refused with 3 at 1
first below all values | | | -30000001 0, 0 9  | refused with 3 at 0
last above all values  | | |   0 9, 0 30000001 | refused with 3 at 1
both unlawful          | | |          1 0, 5 4 | refused with 3 at 0
one window too few     | | |               0 9 | refused with 8 at 0
one window too many    | | |     0 9, 0 9, 0 9 | refused with 8 at 0
no windows             | | |                   | refused with 8 at 0
too few, and unlawful  | | |               5 4 | refused with 3 at 0
too many, and unlawful | | |     0 9, 0 9, 5 4 | refused with 3 at 2
";

/// How many checks were made, and how many of them went wrong.
#[derive(Drop)]
pub struct Checks<'a> {
    rt: &'a HostRuntime,
    made: u64,
    wrong: u64,
}

impl<'a> Checks<'a> {
    pub(crate) fn none(rt: &'a HostRuntime) -> Self {
        Checks {
            rt,
            made: 0,
            wrong: 0,
        }
    }

    /// The allocator.
    pub(crate) fn heap(&self) -> Global {
        self.rt.alloc()
    }

    /// Prints the title of a group of checks.
    pub(crate) fn title(&self, text: &str) -> io::Result<()> {
        println!(self.rt; "{text}")
    }

    /// Prints an outcome, and counts it as wrong where it is not the expected one.
    fn judge<O: fmt::Display>(&mut self, outcome: &O, expected: &str) -> io::Result<()> {
        self.made = self.made.saturating_add(1);
        let found = format!(in self.heap(); "{outcome}")?;
        if found.as_str() == expected {
            return println!(self.rt; "{found}");
        }
        self.wrong = self.wrong.saturating_add(1);
        println!(self.rt; "{found} WRONG, expected: {expected}")
    }

    /// Checks the answer of setting a rule.
    pub(crate) fn setting(
        &mut self,
        name: &str,
        set: Result<(), Fault>,
        expected: &str,
    ) -> io::Result<()> {
        print!(self.rt; "  {name}: ")?;
        self.judge(&Setting(set), expected)
    }

    /// Makes the checks of a table on one rule, a line after the other.
    pub(crate) fn table<R: Rule + SetByEntries>(
        &mut self,
        rule: &mut R,
        table: &str,
    ) -> io::Result<()> {
        for text in table.lines().filter(|text| !text.is_empty()) {
            let line = Line::read(self.heap(), text)?;
            self.line(rule, &line)?;
        }
        Ok(())
    }

    /// Sets a rule and trims windows by it, as a line says.
    fn line<R: Rule + SetByEntries>(&mut self, rule: &mut R, line: &Line<'_>) -> io::Result<()> {
        let heap = self.heap();
        let entries = line.entries.as_ref();
        let set = entries
            .map(|entries| rule.set_by(heap, entries))
            .transpose()?;
        let given = line.windows.as_slice();
        let mut left = given.to_vec(heap)?;
        let answer = rules::trim(rule, &mut left);
        let trimming = Trimming {
            answer,
            given,
            left,
        };
        let name = line.name;
        let shown = Shown(given);
        print!(self.rt; "  {name} [{shown}]: ")?;
        self.judge(&Outcome { set, trimming }, line.outcome)
    }

    /// Compares a rule with plain enumeration on random boards. For each, `draw` makes the rule anew and draws the rest.
    pub(crate) fn boards<
        R: Rule,
        W: Words + Drop,
        F: Fn(Global, &mut Random, &mut R) -> Result<Trial<W>, AllocError>,
    >(&mut self, seed: u64, claim: Claim, rule: &mut R, draw: F) -> io::Result<()>
        requires { F.IsAlwaysCallable draw }
    {
        let mut random = Random::from_seed(seed);
        let mut comparison = Comparison::new(self.rt, claim);
        for _ in 0..BOARDS {
            let trial = draw(self.heap(), &mut random, rule)?;
            comparison.board(rule, trial)?;
        }
        self.made = self.made.saturating_add(u64::from(BOARDS));
        self.wrong = self.wrong.saturating_add(comparison.differing());
        comparison.conclude()
    }

    /// Prints how many checks were made and how many went wrong, and is an error where one did.
    pub(crate) fn conclude(&self) -> anyhow::Result<()> {
        let made = self.made;
        let wrong = self.wrong;
        println!(self.rt; "{made} checks and boards in all, {wrong} went wrong")?;
        ensure!(wrong == 0, "a check went wrong");
        Ok(())
    }
}
