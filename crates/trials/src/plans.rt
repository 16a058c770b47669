//! Every plan of a few small windows, one after another in plan order.

use crate::words::Words;
use rules::Window;
use std::alloc::{AllocError, Global};
use std::mem;

/// The number of values in a window.
fn width(window: &Window) -> u64 {
    if window.first <= window.last {
        u64::from(window.last.abs_diff(window.first)) + 1
    } else {
        0
    }
}

/// The plans in some windows, and the words that allow some of them.
#[derive(Drop)]
pub struct Plans<'a, W> {
    words: &'a W,
    windows: Vec<Window>,
    // The plan that is looked at. It stands beside the windows, since the words take a plan as one slice.
    plan: Vec<i32>,
}

impl<'a, W: Words> Plans<'a, W> {
    pub(crate) fn of(heap: Global, words: &'a W, windows: &[Window]) -> Result<Self, AllocError> {
        Ok(Plans {
            words,
            windows: windows.to_vec(heap)?,
            plan: windows.iter().map(|window| window.first).collect(heap)?,
        })
    }

    /// How many plans there are.
    fn count(&self) -> u64 {
        self.windows.iter().fold(1, |plans: u64, window| plans.saturating_mul(width(window)))
    }

    /// Begins with the earliest plan: each column has its first value.
    fn begin(&mut self) {
        for (value, window) in self.plan.iter_mut().zip(&self.windows) {
            *value = window.first;
        }
    }

    /// Goes on to the next plan: the last column that can rise does so, and the columns after it begin again.
    fn advance(&mut self) {
        for (value, window) in self.plan.iter_mut().zip(&self.windows).rev() {
            if *value < window.last {
                *value += 1;
                return;
            }
            *value = window.first;
        }
    }

    /// Whether the words allow a plan in the windows.
    pub(crate) fn any_allowed(&mut self) -> bool {
        self.begin();
        for _ in 0..self.count() {
            if self.words.allows(self.plan.as_slice()) {
                return true;
            }
            self.advance();
        }
        false
    }

    /// Whether the words allow a plan in the windows that has the value in the column.
    pub(crate) fn support(&mut self, column: usize, value: i32) -> bool {
        let held = Window {
            first: value,
            last: value,
        };
        let before = self.put(column, held);
        let supported = self.any_allowed();
        self.put(column, before);
        supported
    }

    /// Puts a window in place of the column's, and answers that.
    // No `Option`: no caller names a column that is not there, and each would have to say so.
    fn put(&mut self, column: usize, window: Window) -> Window {
        match self.windows.get_mut(column) {
            Some(place) => mem::replace(place, window),
            None => window,
        }
    }
}
