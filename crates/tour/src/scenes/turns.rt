//! Two rules on one board, asked in turn.

use crate::board::{Board, Column, Subject, Values};
use crate::telling;
use differences::{Apart, Link, Links};
use std::io;

fn waits() -> [Link; 3] {
    [
        Link::new(0, 1, -30),
        Link::new(1, 2, -45),
        Link::new(2, 0, 100),
    ]
}

fn asked() -> Board<4> {
    Board::of(
        Values::Starts,
        [
            Column::new(Subject::Service, 360, 380),
            Column::new(Subject::CoolerCheck, 360, 480),
            Column::new(Subject::Cleaning, 450, 500),
            Column::new(Subject::Inspection, 460, 490),
        ],
    )
}

/// Asks the links and then the apart, once.
fn turn(
    rt: &HostRuntime,
    links: &mut Links,
    apart: &mut Apart,
    board: &mut Board<4>,
) -> io::Result<()> {
    board.trim(rt, "Links", links)?;
    board.trim(rt, "Apart", apart)
}

pub(crate) fn tell(rt: &HostRuntime) -> io::Result<()> {
    telling::title(rt, "4. Two rules in turn")?;
    println!(rt;
        "  On another day the cleaning starts at most 100 minutes after the service, with the same waits before it."
    )?;
    println!(rt;
        "  One crew cleans and inspects the tank, in either order, at least 40 minutes apart."
    )?;
    let mut links = Links::fresh();
    telling::setting(rt, "Links", links.set(4, &waits()))?;
    let mut apart = Apart::fresh();
    telling::setting(rt, "Apart", apart.set(4, 2, 3, 40))?;
    let mut board = asked();
    println!(rt; "  The starts that are asked for:")?;
    board.list(rt)?;
    turn(rt, &mut links, &mut apart, &mut board)?;
    println!(rt; "  The cleaning has to be first now, so there is more for the links to strike.")?;
    turn(rt, &mut links, &mut apart, &mut board)?;
    println!(rt; "  Neither rule would strike anything more.")
}
