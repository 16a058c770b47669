//! What the dairy asks for.

use crate::board::{Board, Column, Subject, Values};
use crate::telling;
use std::io;

/// The visits of the day, with the starts that the dairy asks for: the tank inspection from 8 to 9, the others from 6 to 12.
pub(crate) fn board() -> Board<4> {
    Board::of(
        Values::Starts,
        [
            Column::new(Subject::Service, 360, 720),
            Column::new(Subject::CoolerCheck, 360, 720),
            Column::new(Subject::Cleaning, 360, 720),
            Column::new(Subject::Inspection, 480, 540),
        ],
    )
}

pub(crate) fn tell(rt: &HostRuntime) -> io::Result<()> {
    println!(rt; "The service day of a dairy")?;
    telling::title(rt, "1. What the dairy asks for")?;
    println!(rt;
        "  Each visit is a column of the board. Its value is the minute of the day at which the visit starts."
    )?;
    println!(rt;
        "  A plan gives each visit one start, and the dairy asks that it lies in these windows."
    )?;
    board().list(rt)
}
