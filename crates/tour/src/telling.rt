//! How the tour prints its steps.

use rules::Fault;
use std::io;

/// Prints the title of a scene.
pub(crate) fn title(rt: &HostRuntime, text: &str) -> io::Result<()> {
    println!(rt; "")?;
    println!(rt; "{text}")?;
    println!(rt; "")
}

/// Prints a refusal: its number, its place and its words.
pub(crate) fn refusal(rt: &HostRuntime, fault: &Fault) -> io::Result<()> {
    let number = fault.number();
    let place = fault.place();
    println!(rt; "  Refused with number {number} at place {place}: {fault}.")
}

/// Prints whether a rule was set.
pub(crate) fn setting(rt: &HostRuntime, name: &str, set: Result<(), Fault>) -> io::Result<()> {
    match set {
        Ok(()) => println!(rt; "  {name}: set."),
        Err(fault) => refusal(rt, &fault),
    }
}
