//! The columns on rings below 0.

ghost use Rattle.std.specs.Prelude.{◌≡◌, ◌<◌};
ghost use Rattle.rings.specs.Tables.{at, reaches, negative, ring_by, on_ring_below, FirstBelow};

use crate::walks::ClosedTable;

impl<'a> ClosedTable<'a> {
    /// Some walk leads from `i` to `j`, the empty one too.
    fn reaches(&self, i: usize, j: usize) -> bool
        requires i_there { i < self.now.columns }
        requires j_there { j < self.now.columns }
        ensures { result ≡ reaches (at self.now.rows.now) i j }
    {
        i == j || self.rows[i][j].is_some()
    }

    /// The table shows a ring below 0 at `j`.
    fn ring_at(&self, j: usize) -> bool
        requires { j < self.now.columns }
        ensures { result ≡ negative (at self.now.rows.now j j) }
    {
        self.rows[j][j].is_some_and(|length| length < 0)
    }

    /// Column `i` reaches column `j`, is reached from it, and a ring below 0 shows there.
    fn ring_by(&self, i: usize, j: usize) -> bool
        requires i_there { i < self.now.columns }
        requires j_there { j < self.now.columns }
        ensures { result ≡ ring_by (at self.now.rows.now) i j }
    {
        self.reaches(i, j) && self.reaches(j, i) && self.ring_at(j)
    }

    /// Column `i` reaches a ring below 0 and is reached from it.
    fn on_ring_below(&self, i: usize) -> bool
        requires { i < self.now.columns }
        ensures { result ≡ on_ring_below self.now.columns (at self.now.rows.now) i }
    {
        (0..self.columns).any(|j| self.ring_by(i, j))
    }

    /// The smallest column on a ring below 0.
    pub(crate) fn first_on_ring(&self) -> Option<usize>
        ensures { FirstBelow self.now.columns (on_ring_below self.now.columns (at self.now.rows.now)) result }
    {
        (0..self.columns).find(|i| self.on_ring_below(*i))
    }
}
