//! The distances of columns that never fall in a given order.

ghost use Rattle.std.specs.Prelude.{◌≡◌, ◌≤◌};
ghost use Rattle.totals.specs.Cuts.{Columns};
ghost use Rattle.totals.specs.Sums.{Distinct};
ghost use Rattle.totals.specs.Orders.{Placed, place_of, chain_distance};

use differences::Distance;
use differences::link::FARTHEST;
use rules::window::MOST_COLUMNS;

/// The distances of 1 to 32 columns of which some never fall in a given order: each of these is at most any that stands after it.
///
/// The distance is 0 from a column to itself and to those before it in the order, else 60,000,000, which binds no two values.
// No heap: the room is that of the largest board.
#[derive(Clone, Copy)]
pub struct Chain {
    columns: usize,
    places: [Option<usize>; MOST_COLUMNS],
    ghost some: { 1 ≤ columns },
    ghost few: { columns ≤ 32 },
}

impl Chain {
    /// The distances of so many columns of which the summands, in the order given, never fall.
    pub(crate) fn of(columns: usize, summands: &[usize]) -> Chain
        requires some { 1 ≤ columns }
        requires few { columns ≤ 32 }
        requires there { Columns columns summands.now }
        requires distinct { Distinct summands.now }
        ensures width { result.columns ≡ columns }
        ensures placed { Placed summands.now result.places }
    {
        let mut places = [None; MOST_COLUMNS];
        for (place, column) in summands.iter().enumerate() {
            places[*column] = Some(place);
        }
        Chain { columns, places }
    }

    /// The place of a column in the order.
    fn place(&self, column: usize) -> Option<usize>
        ensures { result ≡ place_of self.now.places column }
    {
        *self.places.get(column)?
    }
}

impl Distance for Chain {
    ghost width = { λ c. c.columns };

    ghost distance = { λ c. chain_distance c.places };

    fn columns(&self) -> usize {
        self.columns
    }

    fn between(&self, i: usize, j: usize) -> i32 {
        if i == j {
            return 0;
        }
        // A column without a place comes before every place, so that one comparison serves both.
        let there = self.place(j);
        if there.is_some() && there <= self.place(i) {
            0
        } else {
            FARTHEST
        }
    }
}
