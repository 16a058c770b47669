//! How long a trim takes.
//!
//! `bench COUNT` makes so many trims of each board, and `bench COUNT times` prints how long one of them takes on the average.

#![tactic(auto)]

mod boards;
mod measure;

use crate::measure::{Measure, Report};
use std::env;
use totals::{RisingSum, Sum};

/// How many trims are made where no number is given.
const COUNT: u32 = 1_000;

fn run(rt: &HostRuntime) -> anyhow::Result<()> {
    let mut words = env::args(rt)?.skip(1);
    let count = match words.next() {
        Some(word) => word.as_str().parse::<u32>()?,
        None => COUNT,
    };
    let report = match words.next() {
        Some(_) => Report::Times,
        None => Report::Counts,
    };
    let measure = Measure { rt, count, report };
    boards::sum_of_31(&measure, "a sum of 31", &mut Sum::fresh(), Sum::set)?;
    boards::sum_of_31(
        &measure,
        "a rising sum of 31",
        &mut RisingSum::fresh(),
        RisingSum::set,
    )?;
    boards::linked_sum(&measure, "a sum of 30 in a chain", 1_000)?;
    boards::linked_sum(&measure, "a sum of 30 in a chain, wide", 1_000_000)
}

fn main(rt: HostRuntime) -> anyhow::Result<()> {
    run(&rt)
}
