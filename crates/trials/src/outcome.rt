//! What a call came to, as the tables write it.

use crate::windows::Shown;
use rules::{Fault, Verdict, Window};
use std::fmt;
use std::fmt::Display;

/// A refusal: `refused with 3 at 1`, its number and its place.
#[derive(Clone, Copy)]
struct Refusal(Fault);

impl fmt::Display for Refusal {
    fn fmt<W: fmt::Write>(&self, f: &mut fmt::Formatter<W>) -> fmt::Result {
        let number = self.0.number();
        let place = self.0.place();
        write!(f, "refused with {number} at {place}")
    }
}

/// What setting a rule came to: `set`, or the refusal.
#[derive(Clone, Copy)]
pub struct Setting(pub Result<(), Fault>);

impl fmt::Display for Setting {
    fn fmt<W: fmt::Write>(&self, f: &mut fmt::Formatter<W>) -> fmt::Result {
        match self.0 {
            Ok(()) => f.write_str("set"),
            Err(fault) => Refusal(fault).fmt(f),
        }
    }
}

/// What trimming the windows `given` came to: the answer, and the windows that are left.
#[derive(Drop)]
pub struct Trimming<'a> {
    pub answer: Result<Verdict, Fault>,
    pub given: &'a [Window],
    pub left: Vec<Window>,
}

impl<'a> Trimming<'a> {
    /// Whether the windows are as they were given.
    pub(crate) fn stayed(&self) -> bool {
        self.left.as_slice() == self.given
    }
}

impl<'a> fmt::Display for Trimming<'a> {
    fn fmt<W: fmt::Write>(&self, f: &mut fmt::Formatter<W>) -> fmt::Result {
        let left = Shown(self.left.as_slice());
        match self.answer {
            Ok(Verdict::Open) => write!(f, "leaves {left}"),
            Ok(Verdict::Void) if self.stayed() => f.write_str("void"),
            Ok(Verdict::Void) => write!(f, "void, but the windows are now {left}"),
            Err(fault) if self.stayed() => Refusal(fault).fmt(f),
            Err(_) => write!(f, "refused, but the windows are now {left}"),
        }
    }
}

/// What a line of a table came to: setting the rule, where the line sets it, and then trimming.
#[derive(Drop)]
pub struct Outcome<'a> {
    pub set: Option<Setting>,
    pub trimming: Trimming<'a>,
}

impl<'a> fmt::Display for Outcome<'a> {
    fn fmt<W: fmt::Write>(&self, f: &mut fmt::Formatter<W>) -> fmt::Result {
        if let Some(set) = self.set {
            write!(f, "{set}, ")?;
        }
        self.trimming.fmt(f)
    }
}
