//! Random boards with a sum of some of their columns.

use crate::board::Board;
use crate::compare::Trial;
use crate::random::Random;
use crate::sums::Total;
use crate::sums::words::SumWords;
use rules::Window;
use rules::window::{FIRST_VALUE, LAST_VALUE};
use std::alloc::{AllocError, Global};

pub const SEED: u64 = 20_260_603;

/// One to three of the columns below `columns`, turned round on every other board.
fn draw_summands(
    heap: Global,
    random: &mut Random,
    columns: usize,
) -> Result<Vec<usize>, AllocError> {
    let mut offered: Vec<usize> = (0..columns).collect(heap)?;
    if random.below(2) == 0 {
        offered.reverse();
    }
    let mut summands = Vec::new(heap);
    for column in offered {
        if random.below(4) > 0 || summands.is_empty() {
            summands.push(column)?;
        }
    }
    Ok(summands)
}

/// A window near the sum of the first values of the summands, inside the values.
fn draw_total(random: &mut Random, windows: &[Window], summands: &[usize]) -> Window {
    let near = summands
        .iter()
        .filter_map(|column| windows.get(*column))
        .fold(0i32, |added, window| added.saturating_add(window.first))
        .clamp(FIRST_VALUE, LAST_VALUE);
    let first = random
        .upwards(near.saturating_sub(2), 13)
        .clamp(FIRST_VALUE, LAST_VALUE);
    let last = random.upwards(first, 4).min(LAST_VALUE);
    Window { first, last }
}

/// The columns of a board and after them the total.
pub(crate) fn draw<T: Total + Drop>(
    heap: Global,
    random: &mut Random,
    rule: &mut T,
) -> Result<Trial<SumWords>, AllocError> {
    let total = random.below(3).saturating_add(1);
    let board = Board::draw(heap, random, total)?;
    let summands = draw_summands(heap, random, total)?;
    let mut windows = board.windows(heap)?;
    windows.push(draw_total(random, windows.as_slice(), summands.as_slice()))?;
    *rule = T::fresh();
    Ok(Trial {
        set: rule.set(total.saturating_add(1), total, summands.as_slice()),
        words: SumWords {
            total,
            summands,
            order: T::ORDER,
        },
        windows,
    })
}
