//! Boards as the tour tells them.

use crate::clock::Clock;
use crate::telling;
use rules::{Rule, Verdict, Window};
use std::{fmt, io};

/// What the values of a board are.
#[derive(Clone, Copy)]
pub enum Values {
    /// Minutes of the day at which visits start.
    Starts,
    /// Minutes that works take.
    Minutes,
}

impl fmt::Display for Values {
    fn fmt<W: fmt::Write>(&self, f: &mut fmt::Formatter<W>) -> fmt::Result {
        match self {
            Values::Starts => f.write_str("starts"),
            Values::Minutes => f.write_str("minutes"),
        }
    }
}

/// What a column is about: a visit, or a work whose minutes it counts.
#[derive(Clone, Copy)]
pub enum Subject {
    Service,
    CoolerCheck,
    Cleaning,
    Inspection,
    SpareParts,
    Both,
}

impl Subject {
    fn name(self) -> &'static str {
        match self {
            Subject::Service => "milking machine service",
            Subject::CoolerCheck => "cooler check",
            Subject::Cleaning => "cleaning",
            Subject::Inspection => "tank inspection",
            Subject::SpareParts => "spare parts",
            Subject::Both => "both",
        }
    }
}

/// A visit or a work, and the window of its start or of its minutes.
// An enum and no text: the check does not cover arrays of texts whose length is a parameter.
#[derive(Clone, Copy)]
pub struct Column {
    subject: Subject,
    window: Window,
}

impl Column {
    /// A column by its subject and the ends of its window.
    pub(crate) fn new(subject: Subject, first: i32, last: i32) -> Self {
        Column {
            subject,
            window: Window { first, last },
        }
    }
}

/// A window, told by what its values are.
#[derive(Clone, Copy)]
struct Told {
    values: Values,
    window: Window,
}

impl fmt::Display for Told {
    fn fmt<W: fmt::Write>(&self, f: &mut fmt::Formatter<W>) -> fmt::Result {
        let Window { first, last } = self.window;
        match self.values {
            Values::Starts => {
                let from = Clock(first);
                let to = Clock(last);
                write!(f, "{from} to {to}  ({first} to {last})")
            }
            Values::Minutes => write!(f, "{first} to {last} minutes"),
        }
    }
}

/// The columns of a board, counted from 0.
// No heap: the tour runs where there is none to be had, as the rules do.
#[derive(Clone, Copy)]
pub struct Board<const N: usize> {
    values: Values,
    columns: [Column; N],
}

impl<const N: usize> Board<N> {
    /// A board of such values, with its columns in this order.
    pub(crate) fn of(values: Values, columns: [Column; N]) -> Self {
        Board { values, columns }
    }

    /// Prints a line for each column: its number, its name and its window.
    pub(crate) fn list(&self, rt: &HostRuntime) -> io::Result<()> {
        for (number, column) in self.columns.iter().enumerate() {
            let name = column.subject.name();
            let told = Told {
                values: self.values,
                window: column.window,
            };
            println!(rt; "    column {number}  {name:<24} {told}")?;
        }
        Ok(())
    }

    /// Trims the windows by a rule, and prints what it answers and the windows after that.
    pub(crate) fn trim<R: Rule>(
        &mut self,
        rt: &HostRuntime,
        name: &str,
        rule: &mut R,
    ) -> io::Result<()> {
        // A copy without the names: a rule takes the windows as one slice.
        let mut windows = [Window { first: 0, last: 0 }; N];
        for (window, column) in windows.iter_mut().zip(&self.columns) {
            *window = column.window;
        }
        let values = self.values;
        match rules::trim(rule, &mut windows) {
            Ok(Verdict::Open) => println!(rt; "  {name}: open, and these {values} are left.")?,
            Ok(Verdict::Void) => println!(rt;
                "  {name}: void, there is no plan. The windows stay as they were."
            )?,
            Err(fault) => {
                telling::refusal(rt, &fault)?;
                println!(rt; "  The windows stay as they were.")?;
            }
        }
        for (column, window) in self.columns.iter_mut().zip(&windows) {
            column.window = *window;
        }
        self.list(rt)
    }
}
