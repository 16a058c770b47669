//! Calls that are refused.

use crate::board::{Board, Column, Subject, Values};
use crate::telling;
use differences::{Link, Links};
use std::io;

/// The window of the cooler check is unlawful.
fn backward() -> Board<2> {
    Board::of(
        Values::Starts,
        [
            Column::new(Subject::Service, 360, 420),
            Column::new(Subject::CoolerCheck, 480, 390),
        ],
    )
}

fn right() -> Board<2> {
    Board::of(
        Values::Starts,
        [
            Column::new(Subject::Service, 360, 480),
            Column::new(Subject::CoolerCheck, 360, 480),
        ],
    )
}

pub(crate) fn tell(rt: &HostRuntime) -> io::Result<()> {
    telling::title(rt, "6. Refusals")?;
    let mut links = Links::fresh();
    telling::setting(rt, "Links", links.set(2, &[Link::new(0, 1, -30)]))?;
    println!(rt; "  A board of two columns is to have a second link, and it names column 2.")?;
    telling::setting(
        rt,
        "Links",
        links.set(2, &[Link::new(0, 1, -60), Link::new(1, 2, -45)]),
    )?;
    println!(rt;
        "  The rule stays as it was. A window is offered whose first start is after its last."
    )?;
    backward().trim(rt, "Links", &mut links)?;
    println!(rt;
        "  With the first start at 06:00 and the last at 08:00 for both, the wait is still 30 minutes."
    )?;
    right().trim(rt, "Links", &mut links)
}
