//! Tables of checks: a check a line, with `|` between its fields.

use crate::outcome::Setting;
use rules::Window;
use std::alloc::Global;
use std::io;
use std::io::ErrorKind;

/// Entries that set a rule on so many columns.
#[derive(Drop)]
pub struct Entries {
    pub columns: usize,
    pub numbers: Vec<i32>,
}

impl Entries {
    /// Reads a number of columns and the numbers of the entries. Where there is no number of columns, there are no entries.
    fn read(heap: Global, columns: &str, entries: &str) -> io::Result<Option<Self>> {
        numbers(heap, columns)?
            .first()
            .map(|columns| -> io::Result<Entries> {
                Ok(Entries {
                    columns: column(*columns)?,
                    numbers: numbers(heap, entries)?,
                })
            })
            .transpose()
    }
}

/// A rule that entries can set.
// A trait, and no closure: the rule itself is trimmed afterwards.
pub trait SetByEntries {
    /// Sets the rule, and answers what that came to. Numbers that are no entries of the rule are an error.
    fn set_by(&mut self, heap: Global, entries: &Entries) -> io::Result<Setting>;
}

/// A line of a table: its name, the entries by which the rule is set anew, if it is, the windows that are trimmed, and what comes
/// of both.
#[derive(Drop)]
pub struct Line<'a> {
    pub name: &'a str,
    pub entries: Option<Entries>,
    pub windows: Vec<Window>,
    pub outcome: &'a str,
}

impl<'a> Line<'a> {
    pub(crate) fn read(heap: Global, text: &'a str) -> io::Result<Self> {
        let fields: Vec<&str> = text.split('|').map(|field| field.trim()).collect(heap)?;
        let [name, columns, entries, windows, outcome] = fields.as_slice() else {
            return Err(unreadable());
        };
        Ok(Line {
            name,
            entries: Entries::read(heap, columns, entries)?,
            windows: read_windows(heap, windows)?,
            outcome,
        })
    }
}

/// The error of a table that cannot be read.
pub(crate) fn unreadable() -> io::Error {
    ErrorKind::InvalidData.into()
}

/// The number of a column, or a number of columns.
pub(crate) fn column(number: i32) -> io::Result<usize> {
    usize::try_from(number).map_err(|_| unreadable())
}

/// The numbers of a field, with commas or blanks between them.
fn numbers(heap: Global, field: &str) -> io::Result<Vec<i32>> {
    field
        .split([',', ' '])
        .filter(|word| !word.is_empty())
        .map(|word| word.parse::<i32>().map_err(|_| unreadable()))
        .try_collect(heap)
}

/// The windows of a field: first and last, a comma, first and last.
fn read_windows(heap: Global, field: &str) -> io::Result<Vec<Window>> {
    let mut windows = Vec::new(heap);
    for ends in numbers(heap, field)?.chunks(2) {
        let [first, last] = *ends else {
            return Err(unreadable());
        };
        windows.push(Window { first, last })?;
    }
    Ok(windows)
}
