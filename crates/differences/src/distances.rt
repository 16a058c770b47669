//! Closed tables of distances.

ghost use Rattle.std.specs.Prelude.{◌≤◌};
ghost use Rattle.differences.specs.Tables.{entry, Closed};

use rules::window::MOST_COLUMNS;

pub mod closing;
pub mod table;

/// The distances from one column to each.
type Row = [i32; MOST_COLUMNS];

/// The distances between 1 to 32 columns, each as short as the links make it. Without a link it is 60,000,000, which binds no two values.
// No heap: the room is that of the largest board. A number where no link leads, so that a trim has no case apart.
#[derive(Clone, Copy)]
pub struct Distances {
    columns: usize,
    rows: [Row; MOST_COLUMNS],
    ghost some: { 1 ≤ columns },
    ghost few: { columns ≤ 32 },
    ghost closed: { ∥ Closed columns (entry rows) ∥₁ },
}
