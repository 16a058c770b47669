//! A rule against plain enumeration: every plan in the windows is tried by the words of the rule.

use crate::outcome::Trimming;
use crate::plans::Plans;
use crate::windows::Shown;
use crate::words::Words;
use crate::wrong::Wrong;
use rules::{Fault, Rule, Verdict, Window};
use std::alloc::Global;
use std::io;

/// How many random boards a rule is compared on.
pub const BOARDS: u32 = 20_000;

/// How many boards that differ are printed.
const PRINTED: u64 = 20;

/// What a rule claims of the windows that it leaves.
#[derive(Clone, Copy)]
pub enum Claim {
    /// Both ends of each window are in an allowed plan that lies in the windows.
    Tight,
    /// Each value of each window is in one.
    Full,
}

impl Claim {
    /// Whether the value has to be in an allowed plan, where `left` is the window that the rule leaves of its column.
    fn owes(self, left: Window, value: i32) -> bool {
        match self {
            Claim::Tight => value == left.first || value == left.last,
            Claim::Full => holds(left, value),
        }
    }
}

/// What setting a rule answered, the words that it was set to, and the windows of a board.
// The rule is lent beside it: one that holds links is 10 KiB, and moving it took most of the time of a board.
#[derive(Drop)]
pub struct Trial<W> {
    pub set: Result<(), Fault>,
    pub words: W,
    pub windows: Vec<Window>,
}

/// How much was compared: boards by the rule's verdict, values that were looked for in all plans, and boards that differ.
#[derive(Clone, Copy, Default)]
struct Tally {
    open: u64,
    void: u64,
    values: u64,
    differing: u64,
}

/// A comparison of a rule with plain enumeration.
#[derive(Drop)]
pub struct Comparison<'a> {
    rt: &'a HostRuntime,
    claim: Claim,
    tally: Tally,
}

impl<'a> Comparison<'a> {
    pub(crate) fn new(rt: &'a HostRuntime, claim: Claim) -> Self {
        Comparison {
            rt,
            claim,
            tally: Tally::default(),
        }
    }

    /// The allocator.
    fn heap(&self) -> Global {
        self.rt.alloc()
    }

    /// How many boards differ.
    pub(crate) fn differing(&self) -> u64 {
        self.tally.differing
    }

    /// Trims the windows of a board by a rule, and prints the board where the rule and the enumeration differ.
    pub(crate) fn board<R: Rule, W: Words + Drop>(
        &mut self,
        rule: &mut R,
        trial: Trial<W>,
    ) -> io::Result<()> {
        let Trial {
            set,
            words,
            windows,
        } = trial;
        let given = windows.as_slice();
        let mut left = given.to_vec(self.heap())?;
        let answer = set.and_then(|()| rules::trim(rule, &mut left));
        let trimming = Trimming {
            answer,
            given,
            left,
        };
        let mut plans = Plans::of(self.heap(), &words, given)?;
        let Err(wrong) = self.judge(&trimming, &mut plans) else {
            return Ok(());
        };
        self.tally.differing = self.tally.differing.saturating_add(1);
        if self.tally.differing > PRINTED {
            return Ok(());
        }
        let before = Shown(given);
        println!(self.rt; "  DIFFERS: {words} [{before}]: {trimming}, but {wrong}")
    }

    /// Judges the answer of a rule by the plans in the windows given.
    fn judge<W: Words>(
        &mut self,
        trimming: &Trimming<'_>,
        plans: &mut Plans<'_, W>,
    ) -> Result<(), Wrong> {
        match trimming.answer {
            Ok(Verdict::Open) => {
                self.tally.open = self.tally.open.saturating_add(1);
                self.judge_open(trimming, plans)
            }
            Ok(Verdict::Void) => {
                self.tally.void = self.tally.void.saturating_add(1);
                judge_void(trimming, plans)
            }
            Err(_) => Err(Wrong::Refused),
        }
    }

    /// Judges the windows that are left.
    fn judge_open<W: Words>(
        &mut self,
        trimming: &Trimming<'_>,
        plans: &mut Plans<'_, W>,
    ) -> Result<(), Wrong> {
        for (column, (before, left)) in trimming.given.iter().zip(&trimming.left).enumerate() {
            self.judge_column(plans, column, *before, *left)?;
        }
        Ok(())
    }

    /// Looks for each value that the column had before in all plans.
    fn judge_column<W: Words>(
        &mut self,
        plans: &mut Plans<'_, W>,
        column: usize,
        before: Window,
        left: Window,
    ) -> Result<(), Wrong> {
        if left.first < before.first || before.last < left.last || left.last < left.first {
            return Err(Wrong::Wider);
        }
        for value in before.first..=before.last {
            let supported = plans.support(column, value);
            self.tally.values = self.tally.values.saturating_add(1);
            let kept = holds(left, value);
            if supported && !kept {
                return Err(Wrong::Struck);
            }
            if !supported && self.claim.owes(left, value) {
                return Err(Wrong::Unsupported);
            }
        }
        Ok(())
    }

    /// Prints what was compared.
    pub(crate) fn conclude(&self) -> io::Result<()> {
        let Tally {
            open,
            void,
            values,
            differing,
        } = self.tally;
        println!(self.rt;
            "  {open} boards open and {void} void, {values} values looked for in all plans"
        )?;
        println!(self.rt; "  {differing} of {BOARDS} boards differ")
    }
}

/// Whether the value lies in the window.
fn holds(window: Window, value: i32) -> bool {
    (window.first..=window.last).contains(&value)
}

/// Judges the answer that there is no plan.
fn judge_void<W: Words>(trimming: &Trimming<'_>, plans: &mut Plans<'_, W>) -> Result<(), Wrong> {
    if !trimming.stayed() {
        return Err(Wrong::Moved);
    }
    if plans.any_allowed() {
        return Err(Wrong::Overlooked);
    }
    Ok(())
}
