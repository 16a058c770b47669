//! What a total leaves of windows that distances have trimmed.

ghost use Rattle.std.specs.Prelude.{◌≡◌, ℕ, ◌<◌, ◌≤◌, true, length, pos, ◌-ℤ◌, ◌≤ℤ◌, ◌<ℤ◌, MatchOption};
ghost use Rattle.rules.specs.Plans.{all_lawful};
ghost use Rattle.differences.specs.Tables.{Closed};
ghost use Rattle.differences.specs.Ends.{first_at, last_at};
ghost use Rattle.totals.specs.Reaching.{Value, Moderate, number_at};
ghost use Rattle.totals.specs.Cuts.{column_at, Columns, least, most, least_with, greatest_with, Tops, Bottoms, FirstLeft, LastLeft, CutAt, EndsObey, Meeting, low_of, high_of, Range};

use crate::reaching::{Limits, MOST_SUMMANDS};
use differences::Distance;
use rules::{Verdict, Window};

/// Windows that distances have trimmed, with a total and its summands among their columns.
// That `j` is one of the columns is asked of each caller: it is a fact of a number and the windows together.
#[derive(Drop)]
pub(crate) struct Settled<'a, D: Distance> {
    pub(crate) distances: &'a D,
    pub(crate) windows: &'a [Window],
    pub(crate) total: usize,
    pub(crate) summands: &'a [usize],
    // Filled once: each search for an end reads them.
    pub(crate) tops: &'a [i32],
    pub(crate) bottoms: &'a [i32],
    ghost closed: { Closed (length windows.now) (D.Distance.distance distances.now) },
    ghost lawful: { all_lawful windows.now ≡ true },
    ghost ends: { EndsObey (length windows.now) (D.Distance.distance distances.now) windows.now },
    ghost few: { length summands.now ≤ 31 },
    ghost there: { Columns (length windows.now) summands.now },
    ghost here: { total < length windows.now },
    ghost highest: { Tops windows.now summands.now tops.now },
    ghost lowest: { Bottoms windows.now summands.now bottoms.now },
}

/// Writes a number for each summand.
fn fill<F: Fn(usize) -> i32>(row: &mut [i32], summands: &[usize], number: F)
    requires even { length row.old ≡ length summands.now }
    requires callable { (a : ℕ) → a < length summands.now → F.pre number (column_at summands.now a) }
    ensures long { length row.new ≡ length summands.now }
    ensures each { (a : ℕ) → a < length summands.now → F.post number (column_at summands.now a) (number_at row.new a) }
{
    // Into the caller's row: one that is handed out is copied.
    // An index, not `zip`: after a `zip` over `iter_mut` nothing is known of what was written.
    for (a, place) in row.iter_mut().enumerate() {
        *place = number(summands[a]);
    }
}

/// Writes the last values of the summands.
pub(crate) fn fill_tops(row: &mut [i32], windows: &[Window], summands: &[usize])
    requires even { length row.old ≡ length summands.now }
    requires there { Columns (length windows.now) summands.now }
    ensures { Tops windows.now summands.now row.new }
{
    fill(row, summands, |i| windows[i].last);
}

/// Writes the first values of the summands, with every sign turned.
pub(crate) fn fill_bottoms(row: &mut [i32], windows: &[Window], summands: &[usize])
    requires even { length row.old ≡ length summands.now }
    requires there { Columns (length windows.now) summands.now }
    requires lawful { all_lawful windows.now ≡ true }
    ensures { Bottoms windows.now summands.now row.new }
{
    fill(row, summands, |i| turned_first(windows, i));
}

/// The first value of column `i`, with its sign turned.
fn turned_first(windows: &[Window], i: usize) -> i32
    requires here { i < length windows.now }
    requires lawful { all_lawful windows.now ≡ true }
    ensures { result ≡ pos 0 -ℤ first_at windows.now i }
{
    -windows[i].first
}

impl<'a, D: Distance> Settled<'a, D> {
    /// The first value of column `j` at which the total can be `low` or more.
    fn first_left(&self, j: usize, low: i64) -> i32
        requires here { j < length self.now.windows.now }
        requires most { low ≤ℤ greatest_with (D.Distance.distance self.now.distances.now) self.now.windows.now self.now.summands.now j (last_at self.now.windows.now j) }
        ensures { FirstLeft (D.Distance.distance self.now.distances.now) self.now.windows.now self.now.summands.now j low result }
    {
        let mut room = [0; MOST_SUMMANDS];
        let ways = &mut room[..self.summands.len()];
        fill(ways, self.summands, |i| self.distances.between(j, i));
        let window = self.windows[j];
        let tops = self.tops;
        Limits { tops, ways }.least_reaching(low, window.first, window.last)
    }

    /// The last value of column `j` at which the total can be `high` or less: the same search with every sign turned.
    fn last_left(&self, j: usize, high: i64) -> i32
        requires here { j < length self.now.windows.now }
        requires least { least_with (D.Distance.distance self.now.distances.now) self.now.windows.now self.now.summands.now j (first_at self.now.windows.now j) ≤ℤ high }
        requires moderate { Moderate high }
        ensures { LastLeft (D.Distance.distance self.now.distances.now) self.now.windows.now self.now.summands.now j high result }
    {
        let mut room = [0; MOST_SUMMANDS];
        let ways = &mut room[..self.summands.len()];
        fill(ways, self.summands, |i| self.distances.between(i, j));
        let window = self.windows[j];
        let tops = self.bottoms;
        -Limits { tops, ways }.least_reaching(-high, -window.last, -window.first)
    }

    /// What is left of column `j`: from `low` to `high` if it is the total's, else what the total leaves of it.
    fn cut_at(&self, j: usize, low: i64, high: i64) -> Window
        requires here { j < length self.now.windows.now }
        requires values { Value low × Value high }
        requires least { least_with (D.Distance.distance self.now.distances.now) self.now.windows.now self.now.summands.now j (first_at self.now.windows.now j) ≤ℤ high }
        requires most { low ≤ℤ greatest_with (D.Distance.distance self.now.distances.now) self.now.windows.now self.now.summands.now j (last_at self.now.windows.now j) }
        ensures { CutAt (D.Distance.distance self.now.distances.now) self.now.windows.now self.now.total self.now.summands.now j low high result }
    {
        if j == self.total {
            return Window {
                first: low as i32,
                last: high as i32,
            };
        }
        let first = self.first_left(j, low);
        let last = self.last_left(j, high);
        Window { first, last }
    }

    /// The first values of the summands added up, and their last.
    fn sums(&self) -> (i64, i64)
        ensures first { result.0 ≡ least self.now.windows.now self.now.summands.now }
        ensures last { result.1 ≡ most self.now.windows.now self.now.summands.now }
        ensures moderate { Moderate result.0 × Moderate result.1 }
    {
        let mut least = 0;
        let mut most = 0;
        for column in self.summands {
            let window = self.windows[*column];
            least += i64::from(window.first);
            most += i64::from(window.last);
        }
        (least, most)
    }

    /// The least and the most that the total can be, by its own window and by those of the summands, or `None` where it has no value.
    fn range(&self) -> Option<(i64, i64)>
        ensures { MatchOption result (high_of self.now.windows.now self.now.total self.now.summands.now <ℤ low_of self.now.windows.now self.now.total self.now.summands.now) (λ r. Range self.now.windows.now self.now.total self.now.summands.now r.0 r.1) }
    {
        let (least, most) = self.sums();
        let window = self.windows[self.total];
        let low = least.max(i64::from(window.first));
        let high = most.min(i64::from(window.last));
        if low > high { None } else { Some((low, high)) }
    }

    /// Cuts `windows` down to what the total leaves of the settled ones. `Void` leaves them as they were.
    pub(crate) fn meet(&self, windows: &mut [Window]) -> Verdict
        requires { length windows.old ≡ length self.now.windows.now }
        ensures { Meeting (length self.now.windows.now) (D.Distance.distance self.now.distances.now) self.now.total self.now.summands.now self.now.windows.now windows.old result windows.new }
    {
        let Some((low, high)) = self.range() else {
            return Verdict::Void;
        };
        for (j, window) in windows.iter_mut().enumerate() {
            *window = self.cut_at(j, low, high);
        }
        Verdict::Open
    }
}
