//! The trim by a total over distances.

ghost use Rattle.std.specs.Prelude.{◌≡◌, ◌<◌, ◌≤◌, true, length};
ghost use Rattle.rules.specs.Plans.{all_lawful};
ghost use Rattle.differences.specs.Tables.{Closed};
ghost use Rattle.totals.specs.Cuts.{Columns, TotalOutcome};

use crate::cutting::{Settled, fill_bottoms, fill_tops};
use crate::reaching::MOST_SUMMANDS;
use differences::{Distance, trim_by};
use rules::window::ROOM;
use rules::{Verdict, Window};

/// Trims windows by the distances and by the total of the summands. `Void` leaves them as they were.
pub(crate) fn trim_total<D: Distance>(
    distances: &D,
    total: usize,
    summands: &[usize],
    windows: &mut [Window],
) -> Verdict
    requires width { length windows.old ≡ D.Distance.width distances.now }
    requires closed { Closed (length windows.old) (D.Distance.distance distances.now) }
    requires columns { length windows.old ≤ 32 }
    requires lawful { all_lawful windows.old ≡ true }
    requires few { length summands.now ≤ 31 }
    requires there { Columns (length windows.old) summands.now }
    requires here { total < length windows.old }
    ensures { TotalOutcome (length windows.old) (D.Distance.distance distances.now) total summands.now windows.old result windows.new }
{
    let mut room = ROOM;
    let copy = &mut room[..windows.len()];
    copy.copy_from_slice(windows);
    match trim_by(distances, copy).unwrap() {
        Verdict::Void => Verdict::Void,
        Verdict::Open => {
            let mut highest = [0; MOST_SUMMANDS];
            let tops = &mut highest[..summands.len()];
            fill_tops(tops, copy, summands);
            let mut lowest = [0; MOST_SUMMANDS];
            let bottoms = &mut lowest[..summands.len()];
            fill_bottoms(bottoms, copy, summands);
            let settled = Settled {
                distances,
                windows: copy,
                total,
                summands,
                tops,
                bottoms,
            };
            settled.meet(windows)
        }
    }
}
