//! Visits that have to wait for one another.

use crate::scenes::asked;
use crate::telling;
use differences::{Link, Links};
use std::io;

/// How the visits wait for one another.
fn waits() -> [Link; 4] {
    [
        Link::new(0, 1, -30),
        Link::new(1, 2, -45),
        Link::new(2, 3, -20),
        Link::new(3, 0, 180),
    ]
}

pub(crate) fn tell(rt: &HostRuntime) -> io::Result<()> {
    telling::title(rt, "2. Gaps between visits")?;
    println!(rt;
        "  The cooler check starts at least 30 minutes after the service: column 0 is at most column 1 plus -30."
    )?;
    println!(rt;
        "  The cleaning starts at least 45 minutes after the cooler check: column 1 is at most column 2 plus -45."
    )?;
    println!(rt;
        "  The inspection starts at least 20 minutes after the cleaning: column 2 is at most column 3 plus -20."
    )?;
    println!(rt;
        "  The inspection starts at most 180 minutes after the service: column 3 is at most column 0 plus 180."
    )?;
    let mut links = Links::fresh();
    telling::setting(rt, "Links", links.set(4, &waits()))?;
    asked::board().trim(rt, "Links", &mut links)?;
    println!(rt;
        "  Links are full: whatever minute of its window is chosen for one visit, a plan has it."
    )
}
