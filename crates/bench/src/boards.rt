//! The boards that are measured.

use crate::measure::Measure;
use differences::Link;
use rules::{Fault, Rule, Window};
use std::array;
use totals::LinkedSum;

/// Windows from 0 to `last`, but that of the last column, the total.
fn board<const N: usize>(last: i32, total: Window) -> [Window; N] {
    let mut windows = [Window { first: 0, last }; N];
    if let Some(window) = windows.last_mut() {
        *window = total;
    }
    windows
}

/// A total of 31 summands. `set` takes the number of columns, the total and the summands.
pub(crate) fn sum_of_31<R: Rule, F: FnOnce(&mut R, usize, usize, &[usize]) -> Result<(), Fault>>(
    measure: &Measure<'_>,
    name: &str,
    rule: &mut R,
    set: F,
) -> anyhow::Result<()>
    requires { F.IsAlwaysCallable set }
{
    let summands: [usize; 31] = array::from_fn(|i| i);
    set(rule, 32, 31, &summands)?;
    let total = Window {
        first: 15_000,
        last: 15_500,
    };
    measure.board(name, rule, &board::<32>(1_000, total))
}

/// Thirty columns, each below the next, whose total is fifteen times the width of their windows.
pub(crate) fn linked_sum(measure: &Measure<'_>, name: &str, width: i32) -> anyhow::Result<()> {
    let summands: [usize; 30] = array::from_fn(|i| i);
    let links: [Link; 29] = array::from_fn(|i| Link::new(i, i.saturating_add(1), -1));
    let mut rule = LinkedSum::fresh();
    rule.set(31, 30, &summands, &links)?;
    let all = width.saturating_mul(15);
    let total = Window {
        first: all,
        last: all,
    };
    measure.board(name, &mut rule, &board::<31>(width, total))
}
