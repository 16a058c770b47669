//! Links: fixed cases, refusals and random boards.

mod boards;
mod cases;

use crate::checks::Checks;
use crate::compare::Claim;
use crate::links::boards::{SEED, draw};
use differences::Links;
use std::io;

pub(crate) fn check(checks: &mut Checks<'_>) -> io::Result<()> {
    checks.title("Links, fixed cases")?;
    cases::check(checks)?;
    checks.title("Links, random boards against plain enumeration")?;
    checks.boards(SEED, Claim::Full, &mut Links::fresh(), draw)
}
