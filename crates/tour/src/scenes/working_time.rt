//! Minutes of work that add up.

use crate::board::{Board, Column, Subject, Values};
use crate::telling;
use differences::Link;
use std::io;
use totals::LinkedSum;

pub(crate) fn tell(rt: &HostRuntime) -> io::Result<()> {
    telling::title(rt, "7. Minutes that add up")?;
    println!(rt;
        "  Columns can hold minutes of work as well. Column 2 is the cleaning and the service together."
    )?;
    println!(rt; "  The cleaning takes at least 15 minutes less than the service.")?;
    let mut board = Board::of(
        Values::Minutes,
        [
            Column::new(Subject::Cleaning, 20, 60),
            Column::new(Subject::Service, 30, 90),
            Column::new(Subject::Both, 130, 140),
        ],
    );
    board.list(rt)?;
    let shorter = Link::new(0, 1, -15);
    let mut sum = LinkedSum::fresh();
    telling::setting(rt, "Linked sum", sum.set(3, 2, &[0, 1], &[shorter]))?;
    board.trim(rt, "Linked sum", &mut sum)?;
    println!(rt;
        "  A service of 70 minutes would need a cleaning of 60, only 10 less. Links and a sum in turn would leave it."
    )?;
    println!(rt;
        "  If the cleaning takes exactly 15 minutes less, the two are tied, and a sum cannot take such links."
    )?;
    telling::setting(
        rt,
        "Linked sum",
        sum.set(3, 2, &[0, 1], &[shorter, Link::new(1, 0, 15)]),
    )
}
