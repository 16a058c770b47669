//! What a call judges before it does anything.

ghost use Rattle.std.specs.Prelude.{◌≡◌, Bool, None, MatchResult};
ghost use Rattle.rules.specs.Plans.{lawful};
ghost use Rattle.rules.specs.declared.fault.Fault.TheVariants.{ColumnCount};
ghost use Rattle.rules.specs.Refusals.{first_failing, window_refusal, unless, counted, Counted, answer, Judged};

use crate::fault::Fault;
use crate::window::{MOST_COLUMNS, Window};

/// Refuses a number of columns outside 1 to 32 (1).
pub fn check_columns(columns: usize) -> Result<(), Fault>
    ensures value { result ≡ answer (unless (counted columns) ColumnCount None) }
    ensures law { MatchResult result (λ _. Counted columns) (λ f. (Counted columns → ⊥) × (f ≡ ColumnCount)) }
{
    if (1..=MOST_COLUMNS).contains(&columns) {
        Ok(())
    } else {
        Err(Fault::ColumnCount)
    }
}

/// A test that each entry of a list has to pass.
pub trait Test<T> {
    ghost accepts: { Self → T → Bool };

    fn passes(&self, item: T) -> bool
        ensures { result ≡ accepts self.now item };
}

/// The index of the first entry that fails the test.
pub fn first_failing<T: Copy, P: Test<T>>(test: &P, items: &[T]) -> Option<usize>
    ensures { result ≡ first_failing (P.Test.accepts test.now) items.now }
{
    // A loop, not `position`: the index that it answers is what the edit of this function gets wrong.
    for (i, item) in items.iter().enumerate() {
        if !test.passes(*item) {
            return Some(i);
        }
    }
    None
}

/// The test that both ends of a window are values, and the first is not above the last.
#[derive(Clone, Copy)]
pub struct Lawful;

impl Test<Window> for Lawful {
    ghost accepts = { λ _ w. lawful w };

    fn passes(&self, item: Window) -> bool {
        item.is_lawful()
    }
}

// A function of its own, as each such search: only there the check carries over what `position` finds.
/// The index of the first unlawful window.
fn first_unlawful(windows: &[Window]) -> Option<usize>
    ensures { result ≡ first_failing lawful windows.now }
{
    windows.iter().position(|window| !window.is_lawful())
}

/// Refuses an unlawful window (3, the first one) before a wrong number of windows (8).
pub fn check_windows(columns: usize, windows: &[Window]) -> Result<(), Fault>
    ensures value { result ≡ answer (window_refusal columns windows.now) }
    ensures law { Judged columns windows.now (window_refusal columns windows.now) }
{
    if let Some(at) = first_unlawful(windows) {
        return Err(Fault::UnlawfulWindow(at));
    }
    if windows.len() != columns {
        return Err(Fault::WindowCount);
    }
    Ok(())
}
