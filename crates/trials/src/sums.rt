//! Sums: fixed cases, refusals and random boards.

mod boards;
mod cases;
mod words;

use crate::checks::Checks;
use crate::compare::Claim;
use crate::sums::boards::{SEED, draw};
use crate::sums::words::Order;
use rules::{Fault, Rule};
use std::io;
use totals::{RisingSum, Sum};

/// A rule that a total and its summands set.
pub trait Total: Rule {
    /// The order in which the words of the rule want the summands.
    const ORDER: Order;

    fn fresh() -> Self;

    fn set(&mut self, columns: usize, total: usize, summands: &[usize]) -> Result<(), Fault>;
}

// Two impls, each with a constant of its own: the type behind `Sum` and `RisingSum` is no public one.
impl Total for Sum {
    const ORDER: Order = Order::Any;

    fn fresh() -> Self {
        Sum::fresh()
    }

    fn set(&mut self, columns: usize, total: usize, summands: &[usize]) -> Result<(), Fault> {
        Sum::set(self, columns, total, summands)
    }
}

impl Total for RisingSum {
    const ORDER: Order = Order::Rising;

    fn fresh() -> Self {
        RisingSum::fresh()
    }

    fn set(&mut self, columns: usize, total: usize, summands: &[usize]) -> Result<(), Fault> {
        RisingSum::set(self, columns, total, summands)
    }
}

pub(crate) fn check(checks: &mut Checks<'_>) -> io::Result<()> {
    checks.title("Sums, fixed cases")?;
    cases::check(checks)?;
    checks.title("Sums, random boards against plain enumeration")?;
    checks.boards(SEED, Claim::Full, &mut Sum::fresh(), draw::<Sum>)?;
    checks.title("Rising sums, random boards against plain enumeration")?;
    checks.boards(
        SEED,
        Claim::Full,
        &mut RisingSum::fresh(),
        draw::<RisingSum>,
    )
}
