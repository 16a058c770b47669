//! Sums with links.

ghost use Rattle.std.specs.Prelude.{◌≡◌, ℕ, ◌<◌, true, is_ok, None};
ghost use Rattle.rules.specs.Refusals.{answer};
ghost use Rattle.rules.specs.ShortLists.{listed};
ghost use Rattle.rings.specs.Rings.{RingPlace, TiedSummand};
ghost use Rattle.totals.specs.Linked.{linked_refusal};
ghost use Rattle.totals.specs.Terms.{row_refusal, row_summands};

use crate::terms::Terms;
use differences::Links;

pub mod check;
pub mod rule;

/// Allows the plans in which the total equals the summands added up and all links are kept. No link names the total.
///
/// It is full: every value of every window that it leaves is in an allowed plan. A row that no `set` could have made means what a fresh
/// one means.
// The facts stand under `row_refusal terms ≡ None →`: `Terms` is one row for all sums, and what it means unset, it means here too.
#[derive(Clone, Copy)]
pub struct LinkedSum {
    terms: Terms,
    links: Links,
    ghost entries: { row_refusal terms ≡ None → is_ok (answer (linked_refusal terms.columns terms.total (row_summands terms) (listed links.links))) ≡ true },
    ghost rings: { row_refusal terms ≡ None → RingPlace terms.columns (listed links.links) None },
    ghost untied: { row_refusal terms ≡ None → (p : ℕ) → p < terms.columns → TiedSummand terms.columns (listed links.links) (row_summands terms) p → ⊥ },
    ghost wide: { row_refusal terms ≡ None → links.columns ≡ terms.columns },
}
