//! Setting shifts.

ghost use Rattle.std.specs.Prelude.{◌≡◌, ◌<◌, true, [], length, MatchResult};
ghost use Rattle.rules.specs.Refusals.{first_failing, answer};
ghost use Rattle.layers.specs.Offset.{is_shift, all_shifts, offset_refusal, OffsetJudged};
ghost use Rattle.layers.specs.Shifts.{shifts_of};

use crate::offset::MOST_SHIFT;
use crate::shifts::Shifts;
use rules::{Fault, ShortList};

/// The index of the first shift that is out of range.
fn first_out_of_range(shifts: &[i32]) -> Option<usize>
    ensures { result ≡ first_failing is_shift shifts.now }
{
    shifts
        .iter()
        .position(|shift| !(-MOST_SHIFT..=MOST_SHIFT).contains(shift))
}

/// Refuses more shifts than columns (9), then the first shift out of range (11).
pub(crate) fn check_shifts(columns: usize, shifts: &[i32]) -> Result<(), Fault>
    ensures value { result ≡ answer (offset_refusal columns shifts.now) }
    ensures law { OffsetJudged columns shifts.now (offset_refusal columns shifts.now) }
{
    if shifts.len() > columns {
        return Err(Fault::ListLength);
    }
    if let Some(at) = first_out_of_range(shifts) {
        return Err(Fault::OutOfRange(at));
    }
    Ok(())
}

impl Shifts {
    /// No column is shifted.
    pub(crate) fn none() -> Shifts
        ensures { shifts_of result ≡ [] }
    {
        Shifts {
            leading: ShortList::empty(0),
        }
    }

    /// The shifts of a list, for the leading columns. More than 32 are refused (9).
    pub(crate) fn of(shifts: &[i32]) -> Result<Shifts, Fault>
        requires { all_shifts shifts.now ≡ true }
        ensures { MatchResult result (λ s. shifts_of s ≡ shifts.now) (λ _. 32 < length shifts.now) }
    {
        let leading = ShortList::of(shifts, 0)?;
        Ok(Shifts { leading })
    }
}
