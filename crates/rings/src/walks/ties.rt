//! The summands that a ring of length 0 ties.

ghost use Rattle.std.specs.Prelude.{◌≡◌, ◌<◌};
ghost use Rattle.rings.specs.Tables.{at, shows_tie, tied_to, tied_among, is_tied, FirstBelow};

use crate::walks::ClosedTable;

impl<'a> ClosedTable<'a> {
    /// Two different columns, and the walks there and back add up to 0.
    fn shows_tie(&self, p: usize, q: usize) -> bool
        requires p_there { p < self.now.columns }
        requires q_there { q < self.now.columns }
        ensures { result ≡ shows_tie (at self.now.rows.now) p q }
    {
        p != q
            && self.rows[p][q]
                .zip(self.rows[q][p])
                .is_some_and(|(there, back)| there + back == 0)
    }

    /// Column `q` is there and tied to `p`.
    fn tied_to(&self, p: usize, q: usize) -> bool
        requires { p < self.now.columns }
        ensures { result ≡ tied_to self.now.columns (at self.now.rows.now) p q }
    {
        q < self.columns && self.shows_tie(p, q)
    }

    /// Column `p` is tied to one of the summands.
    fn tied_among(&self, p: usize, summands: &[usize]) -> bool
        requires { p < self.now.columns }
        ensures { result ≡ tied_among self.now.columns (at self.now.rows.now) p summands.now }
    {
        summands.iter().any(|q| self.tied_to(p, *q))
    }

    /// Column `p` is a summand and tied to another.
    fn is_tied(&self, p: usize, summands: &[usize]) -> bool
        requires { p < self.now.columns }
        ensures { result ≡ is_tied self.now.columns (at self.now.rows.now) summands.now p }
    {
        summands.contains(&p) && self.tied_among(p, summands)
    }

    /// The smallest summand that is tied to another.
    pub(crate) fn first_tied(&self, summands: &[usize]) -> Option<usize>
        ensures { FirstBelow self.now.columns (is_tied self.now.columns (at self.now.rows.now) summands.now) result }
    {
        (0..self.columns).find(|p| self.is_tied(*p, summands))
    }
}
