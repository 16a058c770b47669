//! Random boards with few plans.

use crate::random::Random;
use rules::Window;
use std::alloc::{AllocError, Global};

/// Where a column's window may lie: in the middle of the values, or near their ends.
const ORIGINS: [i32; 3] = [-6, -29_999_999, 29_999_980];

/// A window of one to six values near an origin.
#[derive(Clone, Copy)]
struct Column {
    origin: i32,
    window: Window,
}

impl Column {
    fn draw(random: &mut Random, origin: i32) -> Self {
        let first = random.upwards(origin, 13);
        let last = random.upwards(first, 6);
        Column {
            origin,
            window: Window { first, last },
        }
    }
}

#[derive(Drop)]
pub struct Board {
    columns: Vec<Column>,
}

impl Board {
    /// Draws a board. On one board in four the columns may lie far from one another.
    pub(crate) fn draw(
        heap: Global,
        random: &mut Random,
        width: usize,
    ) -> Result<Self, AllocError> {
        let far = random.below(4) == 0;
        let mut columns = Vec::new(heap);
        for _ in 0..width {
            let origin = if far {
                ORIGINS[random.below(ORIGINS.len())]
            } else {
                ORIGINS[0]
            };
            columns.push(Column::draw(random, origin))?;
        }
        Ok(Board { columns })
    }

    /// The number of columns.
    pub(crate) fn width(&self) -> usize {
        self.columns.len()
    }

    /// The windows, one for each column.
    pub(crate) fn windows(&self, heap: Global) -> Result<Vec<Window>, AllocError> {
        self.columns
            .iter()
            .map(|column| column.window)
            .collect(heap)
    }

    /// How far column `left` lies above column `right`, and 0 where one is not there.
    // No `Option`: no caller names such a column, and each would have to say so.
    pub(crate) fn distance(&self, left: usize, right: usize) -> i32 {
        match (self.columns.get(left), self.columns.get(right)) {
            (Some(above), Some(below)) => above.origin.saturating_sub(below.origin),
            _ => 0,
        }
    }
}
