//! The words of each fault. Their contract says what is written where writing succeeds; that it does succeed is tried here.

use rules::Fault;
use std::test::Fail;

#[test]
fn each_fault_is_written(rt: HostRuntime) -> Result<(), Fail> {
    let faults = [
        (
            Fault::ColumnCount,
            "the number of columns is not from 1 to 32",
        ),
        (
            Fault::NoColumn(7),
            "entry 7 names a column that is not there",
        ),
        (
            Fault::UnlawfulWindow(31),
            "window 31 is unlawful: its ends are no values, or its first is above its last",
        ),
        (
            Fault::NothingShared,
            "the hold shares nothing with the asked window",
        ),
        (Fault::MarksFull, "sixteen marks stand already"),
        (Fault::NoMark, "no mark stands"),
        (
            Fault::ListTooShort,
            "the work list or the plan list is too short",
        ),
        (
            Fault::WindowCount,
            "the number of windows is not the number of columns",
        ),
        (Fault::ListLength, "the list is too long or too short"),
        (
            Fault::ColumnTwice(0),
            "entry 0 names a column a second time",
        ),
        (Fault::OutOfRange(256), "entry 256 is outside its range"),
        (
            Fault::NegativeRing(12),
            "column 12 lies on a ring of links below 0",
        ),
        (
            Fault::TiedSummands(3),
            "summand 3 is tied to another summand",
        ),
    ];
    for (fault, words) in faults {
        let written = format!(in rt.alloc(); "{fault}")?;
        assert_eq!(rt; written.as_str(), words);
    }
    Ok(())
}
