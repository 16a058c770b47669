//! Quarter hours while the depot is open.

ghost use Rattle.std.specs.Prelude.{◌≡◌, ◌<◌, true, length, Some, Ok};
ghost use Rattle.rules.specs.Plans.{lawful, all_lawful};
ghost use Rattle.rules.specs.Refusals.{answer};
ghost use Rattle.rules.specs.Meaning.{Narrowed};
ghost use Rattle.depot.specs.Quarters.{QuartersLeft, hours_refusal, HoursJudged};
ghost use Rattle.depot.specs.Hours.{quarter_meaning};

use rules::{Fault, Verdict, Window, check_columns};

/// The minutes of a quarter hour.
const QUARTER: u32 = 15;

/// Column `column` starts on a quarter hour, from the minute `opens` to the minute `closes`.
#[derive(Clone, Copy)]
pub(crate) struct Hours {
    pub column: usize,
    pub opens: u32,
    pub closes: u32,
}

impl Hours {
    /// Judges the hours of one of `columns` columns.
    pub(crate) fn check(&self, columns: usize) -> Result<(), Fault>
        ensures value { result ≡ answer (hours_refusal columns self.now.column self.now.opens self.now.closes) }
        ensures law { HoursJudged columns self.now.column self.now.opens self.now.closes (hours_refusal columns self.now.column self.now.opens self.now.closes) }
    {
        check_columns(columns)?;
        if self.column >= columns {
            return Err(Fault::NoColumn(0));
        }
        if self.opens > self.closes {
            return Err(Fault::UnlawfulWindow(0));
        }
        Ok(())
    }

    /// Cuts the window of the column down to its quarter hours while the depot is open. `Void` leaves it as it was.
    pub(crate) fn cut(&self, windows: &mut [Window]) -> Verdict
        requires lawful { all_lawful windows.old ≡ true }
        requires there { self.now.column < length windows.old }
        ensures { Narrowed (quarter_meaning (length windows.old) (Some self.now)) windows.old (Ok result) windows.new }
    {
        match self.quarters(windows[self.column]) {
            Some(window) => {
                windows[self.column] = window;
                Verdict::Open
            }
            None => Verdict::Void,
        }
    }

    /// From the first quarter hour of a window to its last, while the depot is open.
    fn quarters(&self, window: Window) -> Option<Window>
        requires { lawful window ≡ true }
        ensures { QuartersLeft self.now.opens self.now.closes window result }
    {
        // A window that ends below 0 holds no minute.
        let until = u32::try_from(window.last).ok()?;
        let earliest = self.opens.max(window.first.max(0) as u32);
        let latest = self.closes.min(until);
        if earliest > latest {
            return None;
        }
        let first = earliest.div_ceil(QUARTER) * QUARTER;
        let last = latest / QUARTER * QUARTER;
        if first > last {
            return None;
        }
        Some(Window {
            first: first as i32,
            last: last as i32,
        })
    }
}
