//! Windows shifted to the rule below, and back.

ghost use Rattle.std.specs.Prelude.{◌≡◌, true, map, length, neg_ℤ};
ghost use Rattle.rules.specs.Plans.{lawful, all_lawful, value_at};
ghost use Rattle.layers.specs.Offset.{is_shift, shift_window, shift_windows, cut};
ghost use Rattle.layers.specs.Shifts.{shifts_of};

use crate::shifts::Shifts;
use rules::Window;
use rules::window::{FIRST_VALUE, LAST_VALUE};

impl Shifts {
    /// The shift of a column.
    fn at(&self, column: usize) -> i32
        ensures value { result ≡ value_at (shifts_of self.now) column }
        ensures near { is_shift result ≡ true }
    {
        self.leading.as_slice().get(column).copied().unwrap_or(0)
    }

    /// Writes what the rule below a layer is asked on: the windows shifted, and cut to the values.
    pub(crate) fn lower(&self, windows: &[Window], below: &mut [Window])
        requires lawful { all_lawful windows.now ≡ true }
        requires even { length below.old ≡ length windows.now }
        ensures { below.new ≡ map cut (shift_windows (shifts_of self.now) windows.now) }
    {
        // An index, not `zip`: after a `zip` over `iter_mut` nothing is known of what was written.
        for (i, window) in below.iter_mut().enumerate() {
            *window = lowered(windows[i], self.at(i));
        }
    }

    /// Writes what the rule below left, shifted back.
    pub(crate) fn raise(&self, below: &[Window], windows: &mut [Window])
        requires lawful { all_lawful below.now ≡ true }
        requires even { length windows.old ≡ length below.now }
        ensures { windows.new ≡ shift_windows (map neg_ℤ (shifts_of self.now)) below.now }
    {
        // An index, not `zip`, as in `lower`.
        for (i, window) in windows.iter_mut().enumerate() {
            *window = raised(below[i], self.at(i));
        }
    }
}

// Any two numbers make a `Window`, so that it is lawful stands in contracts, and not in its type.
/// The values of a window, shifted.
fn lowered(window: Window, shift: i32) -> Window
    requires lawful { lawful window ≡ true }
    requires near { is_shift shift ≡ true }
    ensures { result ≡ cut (shift_window shift window) }
{
    Window {
        first: (window.first + shift).max(FIRST_VALUE),
        last: (window.last + shift).min(LAST_VALUE),
    }
}

/// The window whose values are shifted into this one.
fn raised(window: Window, shift: i32) -> Window
    requires lawful { lawful window ≡ true }
    requires near { is_shift shift ≡ true }
    ensures { result ≡ shift_window (neg_ℤ shift) window }
{
    Window {
        first: window.first - shift,
        last: window.last - shift,
    }
}
