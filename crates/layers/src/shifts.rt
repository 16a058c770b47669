//! One shift for each of the leading columns.

ghost use Rattle.std.specs.Prelude.{◌≡◌, true};
ghost use Rattle.rules.specs.ShortLists.{listed};
ghost use Rattle.layers.specs.Offset.{all_shifts};

use rules::ShortList;
use rules::window::MOST_COLUMNS;

pub(crate) mod moving;
pub(crate) mod setting;

/// The shifts of the leading columns. The columns after them are not shifted.
#[derive(Clone, Copy)]
pub(crate) struct Shifts {
    leading: ShortList<i32, MOST_COLUMNS>,
    ghost near: { all_shifts (listed leading) ≡ true },
}
