//! Trims of one board, over and over.

use rules::{Rule, Verdict, Window};
use std::time::Instant;

/// What is printed of the trims of a board.
#[derive(Clone, Copy)]
pub(crate) enum Report {
    /// How many were open.
    Counts,
    /// How many were open, and how long one of them takes on the average.
    Times,
}

/// How many trims are made of a board, and what is printed of them.
#[derive(Clone, Copy)]
pub(crate) struct Measure<'a> {
    pub rt: &'a HostRuntime,
    pub count: u32,
    pub report: Report,
}

impl<'a> Measure<'a> {
    /// Trims the board so many times, each time from the same windows.
    pub(crate) fn board<R: Rule, const N: usize>(
        &self,
        name: &str,
        rule: &mut R,
        windows: &[Window; N],
    ) -> anyhow::Result<()> {
        let start = Instant::now(self.rt)?;
        let mut open = 0u32;
        for _ in 0..self.count {
            let mut left = *windows;
            if let Ok(Verdict::Open) = rules::trim(rule, &mut left) {
                open = open.saturating_add(1);
            }
        }
        let elapsed = start.elapsed(self.rt)?;
        println!(self.rt; "{name}: {open} trims")?;
        match self.report {
            Report::Counts => Ok(()),
            Report::Times => {
                let mean = elapsed.as_nanos() / u128::from(self.count.max(1));
                println!(self.rt; "  {mean} nanoseconds each")?;
                Ok(())
            }
        }
    }
}
