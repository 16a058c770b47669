//! Every refusal that a call can answer, with its number and its place.

ghost use Rattle.std.specs.Prelude.{◌≡◌, Some};
ghost use Rattle.rules.specs.Faults.{number, place, words};

use std::error::Error;
use std::fmt;

/// Why a call was refused. A refused call alters no board, rule or list.
///
/// Where a case has a number, it is the place: the index of the first offending window or entry, or, in the last two, a column.
/// Entries are a total, then summands, then links, counted from 0. Elsewhere the place is 0.
#[derive(Clone, Copy, PartialEq, Eq, Debug)]
pub enum Fault {
    /// 1: the number of columns is outside 1 to 32.
    ColumnCount,
    /// 2: an entry names a column that is not there.
    NoColumn(usize),
    /// 3: a window is unlawful.
    UnlawfulWindow(usize),
    /// 4: a hold shares nothing with the asked window.
    NothingShared,
    /// 5: sixteen marks stand.
    MarksFull,
    /// 6: no mark stands.
    NoMark,
    /// 7: the work list or the plan list is too short.
    ListTooShort,
    /// 8: the number of windows is not the rule's number of columns.
    WindowCount,
    /// 9: a list of entries is too long or too short.
    ListLength,
    /// 10: a column is named twice in one sum, link or apart, or a total in its links.
    ColumnTwice(usize),
    /// 11: a link, a gap or a shift is outside its range.
    OutOfRange(usize),
    /// 12: a linked sum has a ring below 0; the smallest column on such a ring.
    NegativeRing(usize),
    /// 13: two summands of a linked sum are tied; the smallest tied summand.
    TiedSummands(usize),
}

impl Fault {
    /// The number of the refusal, 1 to 13.
    pub fn number(&self) -> u8
        ensures { result ≡ number self.now }
    {
        match self {
            Fault::ColumnCount => 1,
            Fault::NoColumn(_) => 2,
            Fault::UnlawfulWindow(_) => 3,
            Fault::NothingShared => 4,
            Fault::MarksFull => 5,
            Fault::NoMark => 6,
            Fault::ListTooShort => 7,
            Fault::WindowCount => 8,
            Fault::ListLength => 9,
            Fault::ColumnTwice(_) => 10,
            Fault::OutOfRange(_) => 11,
            Fault::NegativeRing(_) => 12,
            Fault::TiedSummands(_) => 13,
        }
    }

    /// The place of the refusal.
    pub fn place(&self) -> usize
        ensures { result ≡ place self.now }
    {
        match self {
            Fault::NoColumn(at)
            | Fault::UnlawfulWindow(at)
            | Fault::ColumnTwice(at)
            | Fault::OutOfRange(at)
            | Fault::NegativeRing(at)
            | Fault::TiedSummands(at) => *at,
            Fault::ColumnCount
            | Fault::NothingShared
            | Fault::MarksFull
            | Fault::NoMark
            | Fault::ListTooShort
            | Fault::WindowCount
            | Fault::ListLength => 0,
        }
    }
}

impl Error for Fault {}

impl fmt::Display for Fault {
    ghost output = { λ f. Some (words f) };

    fn fmt<W: fmt::Write>(&self, f: &mut fmt::Formatter<W>) -> fmt::Result {
        match self {
            Fault::ColumnCount => f.write_str("the number of columns is not from 1 to 32"),
            Fault::NoColumn(at) => write!(f, "entry {at} names a column that is not there"),
            Fault::UnlawfulWindow(at) => write!(
                f,
                "window {at} is unlawful: its ends are no values, or its first is above its last"
            ),
            Fault::NothingShared => f.write_str("the hold shares nothing with the asked window"),
            Fault::MarksFull => f.write_str("sixteen marks stand already"),
            Fault::NoMark => f.write_str("no mark stands"),
            Fault::ListTooShort => f.write_str("the work list or the plan list is too short"),
            Fault::WindowCount => f.write_str("the number of windows is not the number of columns"),
            Fault::ListLength => f.write_str("the list is too long or too short"),
            Fault::ColumnTwice(at) => write!(f, "entry {at} names a column a second time"),
            Fault::OutOfRange(at) => write!(f, "entry {at} is outside its range"),
            Fault::NegativeRing(column) => write!(
                f,
                "column {column} lies on a ring of links below 0"
            ),
            Fault::TiedSummands(column) => write!(f, "summand {column} is tied to another summand"),
        }
    }
}
