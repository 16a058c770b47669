//! Lists in fixed memory.

ghost use Rattle.std.specs.Prelude.{◌≡◌, ◌<◌, ◌≤◌, [], length, MatchResult};
ghost use Rattle.rules.specs.declared.fault.Fault.TheVariants.{ListLength};
ghost use Rattle.rules.specs.ShortLists.{listed};

use crate::fault::Fault;

/// Up to `N` entries in fixed memory: those in the first `count` places. A count beyond the places means no entries.
// No heap, and no ghost field: rules that are rows hold such lists, and every bit pattern of a row means something.
#[derive(Clone, Copy)]
pub struct ShortList<T, const N: usize> {
    count: usize,
    places: [T; N],
}

impl<T: Copy, const N: usize> ShortList<T, N> {
    /// No entries. Every place holds `filler`.
    pub fn empty(filler: T) -> Self
        ensures { listed result ≡ [] }
    {
        ShortList {
            count: 0,
            places: [filler; N],
        }
    }

    /// The entries of a list. `filler` stands in the places after them. More than `N` are refused (9).
    pub fn of(entries: &[T], filler: T) -> Result<Self, Fault>
        ensures { MatchResult result (λ s. (length entries.now ≤ N) × (listed s ≡ entries.now)) (λ f. (N < length entries.now) × (f ≡ ListLength)) }
    {
        let count = entries.len();
        if count > N {
            return Err(Fault::ListLength);
        }
        let mut places = [filler; N];
        places[..count].copy_from_slice(entries);
        Ok(ShortList { count, places })
    }

    /// The entries.
    pub fn as_slice(&self) -> &[T]
        ensures { result.now ≡ listed self.now }
    {
        self.places.get(..self.count).unwrap_or(&[])
    }
}
