//! Two visits by one crew, in either order.

use crate::board::{Board, Column, Subject, Values};
use crate::telling;
use differences::Apart;
use std::io;

/// A day on which the spare parts have to come early.
fn early() -> Board<2> {
    Board::of(
        Values::Starts,
        [
            Column::new(Subject::Cleaning, 480, 530),
            Column::new(Subject::SpareParts, 500, 520),
        ],
    )
}

/// A day that leaves the cleaning much time.
fn long() -> Board<2> {
    Board::of(
        Values::Starts,
        [
            Column::new(Subject::Cleaning, 480, 600),
            Column::new(Subject::SpareParts, 530, 550),
        ],
    )
}

/// Trims the starts of the two visits.
fn trim(rt: &HostRuntime, apart: &mut Apart, board: &mut Board<2>) -> io::Result<()> {
    println!(rt; "  The starts that are asked for:")?;
    board.list(rt)?;
    board.trim(rt, "Apart", apart)
}

pub(crate) fn tell(rt: &HostRuntime) -> io::Result<()> {
    telling::title(rt, "3. One crew")?;
    println!(rt;
        "  One crew cleans the dairy and brings spare parts to the next farm, in either order."
    )?;
    println!(rt;
        "  The two starts are at least 40 minutes apart: one is at most the other minus 40."
    )?;
    let mut apart = Apart::fresh();
    telling::setting(rt, "Apart", apart.set(2, 0, 1, 40))?;
    trim(rt, &mut apart, &mut early())?;
    println!(rt;
        "  The spare parts cannot come first, since 08:20 plus 40 minutes is after 08:50."
    )?;
    trim(rt, &mut apart, &mut long())?;
    println!(rt;
        "  Nothing is struck: the cleaning may come first or last. Its start at 09:00 is in no plan all the same."
    )?;
    println!(rt;
        "  Apart is tight: both ends of each window are in a plan, and not each minute between them."
    )
}
