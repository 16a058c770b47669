//! The trim by distances.

ghost use Rattle.std.specs.Prelude.{◌≡◌, ◌<◌, ◌≤ℤ◌, true, length, MatchOption};
ghost use Rattle.rules.specs.Plans.{all_lawful, NoPlan};
ghost use Rattle.rules.specs.Meaning.{Narrowed};
ghost use Rattle.differences.specs.Tables.{Closed, obeys, distance_meaning};
ghost use Rattle.differences.specs.Ends.{Cut, AllCut};

use crate::distance::Distance;
use rules::window::ROOM;
use rules::{Fault, Verdict, Window, check_windows};

/// What the distances leave of the window of column `i`, or `None` where no plan in the windows obeys them.
fn cut<D: Distance>(distances: &D, windows: &[Window], i: usize) -> Option<Window>
    requires closed { Closed (length windows.now) (D.Distance.distance distances.now) }
    requires lawful { all_lawful windows.now ≡ true }
    requires there { i < length windows.now }
    ensures { MatchOption result (NoPlan (obeys (length windows.now) (D.Distance.distance distances.now)) windows.now) (λ w. Cut (length windows.now) (D.Distance.distance distances.now) windows.now i w × (w.first ≤ℤ w.last)) }
{
    let mut first = windows[i].first;
    let mut last = windows[i].last;
    for (j, window) in windows.iter().enumerate() {
        first = first.max(window.first - distances.between(i, j));
        last = last.min(window.last + distances.between(j, i));
    }
    if first > last {
        return None;
    }
    Some(Window { first, last })
}

/// Writes to `left` what the distances leave of all windows, or `None` where no plan in them obeys the distances.
fn cut_all<D: Distance>(distances: &D, windows: &[Window], left: &mut [Window]) -> Option<()>
    requires closed { Closed (length windows.now) (D.Distance.distance distances.now) }
    requires lawful { all_lawful windows.now ≡ true }
    requires even { length left.old ≡ length windows.now }
    ensures { MatchOption result (NoPlan (obeys (length windows.now) (D.Distance.distance distances.now)) windows.now) (λ _. AllCut (length windows.now) (D.Distance.distance distances.now) windows.now left.new (length windows.now)) }
{
    for (i, place) in left.iter_mut().enumerate() {
        *place = cut(distances, windows, i)?;
    }
    Some(())
}

/// Cuts the windows down to the values of the plans that obey the distances. A refusal and `Void` leave them as they were.
///
/// One pass serves, whatever the windows' widths.
pub fn trim_by<D: Distance>(distances: &D, windows: &mut [Window]) -> Result<Verdict, Fault>
    ensures { Narrowed (distance_meaning (D.Distance.width distances.now) (D.Distance.distance distances.now)) windows.old result windows.new }
{
    check_windows(distances.columns(), windows)?;
    let mut room = ROOM;
    let left = &mut room[..windows.len()];
    match cut_all(distances, windows, left) {
        None => Ok(Verdict::Void),
        Some(()) => {
            windows.copy_from_slice(left);
            Ok(Verdict::Open)
        }
    }
}
