//! Apart: fixed cases, refusals and random boards.

mod boards;
mod cases;

use crate::apart::boards::{SEED, draw};
use crate::checks::Checks;
use crate::compare::Claim;
use differences::Apart;
use std::io;

pub(crate) fn check(checks: &mut Checks<'_>) -> io::Result<()> {
    checks.title("Apart, fixed cases")?;
    cases::check(checks)?;
    checks.title("Apart, random boards against plain enumeration")?;
    checks.boards(SEED, Claim::Tight, &mut Apart::fresh(), draw)
}
