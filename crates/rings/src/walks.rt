//! The table of walks: for two columns the length of the shortest walk that was found, or none.

ghost use Rattle.std.specs.Prelude.{◌≤◌};
ghost use Rattle.std.proofs.Props.{props};
ghost use Rattle.rings.specs.Tables.{at, Bounded};

use rules::window::MOST_COLUMNS;

mod filling;
mod rings;
mod ties;

/// From one column to each: the length of a walk, or none.
type Row = [Option<i64>; MOST_COLUMNS];

// No heap: the room is that of the largest board. The closed table borrows it, since a table that is moved is copied whole.
// That there are at most 32 columns is a clause of `pass`, not a ghost field: that was tried, and the check does not lend a row of a struct
// with one yet. So the closed table, which has ghost fields, is a type of its own.
/// The table while walks are entered. The entries of its leading columns count.
#[derive(Drop)]
pub(crate) struct Table {
    columns: usize,
    rows: [Row; MOST_COLUMNS],
}

// That a column is there is asked of each caller: it is a fact of the number and of the table, and no field of either can hold it.
/// The closed table: no way by another column is left out. Two of its lengths can be added.
#[derive(Drop)]
pub(crate) struct ClosedTable<'a> {
    columns: usize,
    rows: &'a [Row; MOST_COLUMNS],
    ghost few: { columns ≤ 32 },
    ghost bounded: { Bounded columns 257698037760000000 (at rows.now) } by { Prim.hlevel props },
}
