//! A day that has no plan.

use crate::board::{Board, Column, Subject, Values};
use crate::telling;
use differences::{Link, Links};
use std::io;

pub(crate) fn tell(rt: &HostRuntime) -> io::Result<()> {
    telling::title(rt, "5. A day without a plan")?;
    println!(rt;
        "  The cooler check starts at least 30 minutes after the service, and before 06:21."
    )?;
    let mut links = Links::fresh();
    telling::setting(rt, "Links", links.set(2, &[Link::new(0, 1, -30)]))?;
    let mut board = Board::of(
        Values::Starts,
        [
            Column::new(Subject::Service, 360, 420),
            Column::new(Subject::CoolerCheck, 360, 380),
        ],
    );
    board.trim(rt, "Links", &mut links)
}
