//! Random boards with two columns apart.

use crate::board::Board;
use crate::compare::Trial;
use crate::random::Random;
use crate::words::Words;
use differences::Apart;
use std::alloc::{AllocError, Global};
use std::fmt;

pub const SEED: u64 = 20_260_602;

/// Apart, by its words.
#[derive(Clone, Copy)]
pub struct ApartWords {
    one: usize,
    other: usize,
    gap: i32,
}

impl fmt::Display for ApartWords {
    fn fmt<W: fmt::Write>(&self, f: &mut fmt::Formatter<W>) -> fmt::Result {
        let ApartWords { one, other, gap } = *self;
        write!(f, "apart ({one}, {other}, {gap})")
    }
}

impl Words for ApartWords {
    /// One is at most the other minus the gap, or the other is at most the one minus the gap.
    fn allows(&self, plan: &[i32]) -> bool {
        let (Some(one), Some(other)) = (plan.get(self.one), plan.get(self.other)) else {
            return false;
        };
        let one = i64::from(*one);
        let other = i64::from(*other);
        let gap = i64::from(self.gap);
        one <= other - gap || other <= one - gap
    }
}

/// A gap that may bind columns that lie so far from one another.
fn draw_gap(random: &mut Random, distance: i32) -> i32 {
    let least = distance.saturating_abs().saturating_sub(4);
    random.upwards(least, 13).max(1)
}

pub(crate) fn draw(
    heap: Global,
    random: &mut Random,
    rule: &mut Apart,
) -> Result<Trial<ApartWords>, AllocError> {
    let columns = random.below(3).saturating_add(2);
    let board = Board::draw(heap, random, columns)?;
    let (one, other) = random.two_below(columns);
    let gap = draw_gap(random, board.distance(one, other));
    *rule = Apart::fresh();
    Ok(Trial {
        set: rule.set(columns, one, other, gap),
        words: ApartWords { one, other, gap },
        windows: board.windows(heap)?,
    })
}
