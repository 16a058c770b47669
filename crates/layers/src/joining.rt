//! Several rules asked in turn, until one is void or a whole turn changes no window.

ghost use Rattle.std.specs.Prelude.{◌≡◌, ◌≤◌, true, List, length, None, Ok};
ghost use Rattle.rules.specs.Plans.{all_lawful};
ghost use Rattle.rules.specs.Refusals.{window_refusal};
ghost use Rattle.rules.specs.Meaning.{Meaning, Narrowed};
ghost use Rattle.layers.specs.Joining.{most_columns, joint, window_width, total_width, Turned, FixedPoint};

use rules::window::ROOM;
use rules::{Fault, Verdict, Window, check_windows};

/// Several rules that bind one board together.
pub(crate) trait InTurn {
    ghost meanings: { Self → List Meaning };

    /// Asks each rule once, in order, until one is void.
    fn turn(&mut self, windows: &mut [Window]) -> Verdict
        requires lawful { all_lawful windows.old ≡ true }
        requires room { most_columns (meanings self.old) ≤ length windows.old }
        ensures same { meanings self.new ≡ meanings self.old }
        ensures outcome { Turned (meanings self.old) windows.old result windows.new };

    /// Asks the rules, turn after turn.
    final fn settle(&mut self, windows: &mut [Window]) -> Verdict
        requires taken { window_refusal (most_columns (meanings self.old)) windows.old ≡ None }
        requires few { length windows.old ≤ 32 }
        ensures same { meanings self.new ≡ meanings self.old }
        ensures outcome { FixedPoint (meanings self.old) windows.old result windows.new }
    {
        // The label names the loop for its proof.
        'turns: loop {
            let before = total_width(windows);
            if let Verdict::Void = self.turn(windows) {
                return Verdict::Void;
            }
            if total_width(windows) == before {
                return Verdict::Open;
            }
        }
    }

    /// Cuts the windows down by the rules. It asks them on a copy, so that `Void` leaves the windows as they were.
    final fn narrow_together(
        &mut self,
        columns: usize,
        windows: &mut [Window],
    ) -> Result<Verdict, Fault>
        requires width { columns ≡ most_columns (meanings self.old) }
        requires few { columns ≤ 32 }
        ensures same { meanings self.new ≡ meanings self.old }
        ensures outcome { Narrowed (joint (meanings self.old)) windows.old result windows.new }
    {
        check_windows(columns, windows)?;
        let mut room = ROOM;
        let copy = &mut room[..columns];
        copy.copy_from_slice(windows);
        let verdict = self.settle(copy);
        if let Verdict::Open = verdict {
            windows.copy_from_slice(copy);
        }
        Ok(verdict)
    }
}

/// The widths of all windows together. Windows inside others are the same if they are as wide.
fn total_width(windows: &[Window]) -> u64
    requires lawful { all_lawful windows.now ≡ true }
    requires few { length windows.now ≤ 32 }
    ensures { result ≡ total_width windows.now }
{
    windows.iter().map(window_width).sum()
}

/// How far the last value of a window is from its first.
fn window_width(window: &Window) -> u64
    ensures { result ≡ window_width window.now }
{
    u64::from(window.last.abs_diff(window.first))
}
