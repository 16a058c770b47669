//! Runs the rules on fixed cases, on calls that they have to refuse, and on random boards against plain enumeration.
//!
//! Whatever comes out otherwise than expected is printed with its board, counted, and ends the program with an error.

#![tactic(auto)]

mod apart;
mod board;
mod checks;
mod compare;
#[cfg(test)]
mod faults;
mod links;
mod outcome;
mod plans;
mod random;
mod sums;
mod table;
mod windows;
mod words;
mod wrong;

use crate::checks::Checks;

/// Makes every check.
fn run(rt: &HostRuntime) -> anyhow::Result<()> {
    let mut checks = Checks::none(rt);
    links::check(&mut checks)?;
    apart::check(&mut checks)?;
    sums::check(&mut checks)?;
    checks.conclude()
}

fn main(rt: HostRuntime) -> anyhow::Result<()> {
    run(&rt)
}
