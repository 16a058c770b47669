//! The service day of a dairy, told step by step: what is asked, what the rules say, and what they leave.

#![tactic(auto)]

mod board;
mod clock;
mod scenes;
mod telling;

use std::io;

fn main(rt: HostRuntime) -> io::Result<()> {
    scenes::asked::tell(&rt)?;
    scenes::gaps::tell(&rt)?;
    scenes::crew::tell(&rt)?;
    scenes::turns::tell(&rt)?;
    scenes::no_plan::tell(&rt)?;
    scenes::refused::tell(&rt)?;
    scenes::working_time::tell(&rt)
}
