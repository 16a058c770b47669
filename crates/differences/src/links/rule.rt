//! Setting links, and trimming by them.

ghost use Rattle.std.specs.Prelude.{◌≡◌, true, Ok, Err};
ghost use Rattle.std.specs.Option.{option_map};
ghost use Rattle.rules.specs.Refusals.{answer};
ghost use Rattle.rules.specs.ShortLists.{listed};
ghost use Rattle.rules.specs.Meaning.{tight_rule, fresh_scope};
ghost use Rattle.differences.specs.Links.{links_meaning, links_refusal, LinksJudged};
ghost use Rattle.differences.specs.Rules.{meaning_of};

use crate::distances::Distances;
use crate::link::Link;
use crate::links::Links;
use crate::trim::trim_by;
use rules::{Fault, Rule, ShortList, Verdict, Window, check_windows};

/// What stands in the places that no link takes.
const FILLER: Link = Link {
    left: 0,
    right: 0,
    bound: 0,
};

impl Links {
    /// One column, and no links: every plan is allowed.
    pub fn fresh() -> Links
        ensures { meaning_of result ≡ tight_rule fresh_scope true }
    {
        Links {
            columns: 1,
            links: ShortList::empty(FILLER),
            distances: Some(Distances::fresh()),
        }
    }

    /// Sets the links for so many columns. A refusal leaves the rule as it was.
    pub fn set(&mut self, columns: usize, links: &[Link]) -> Result<(), Fault>
        ensures value { result ≡ answer (links_refusal columns links.now) }
        ensures law { LinksJudged columns links.now (links_refusal columns links.now) }
        ensures taken { result ≡ Ok tt → meaning_of self.new ≡ links_meaning columns links.now }
        ensures kept { result ≡ Ok tt → (self.new.columns ≡ columns) × (listed self.new.links ≡ links.now) }
        ensures refused { (f : Fault) → result ≡ Err f → self.new ≡ self.old }
    {
        let distances = Distances::of_links(columns, links)?;
        *self = Links {
            columns,
            links: ShortList::of(links, FILLER)?,
            distances,
        };
        Ok(())
    }

    /// The closed table of the links, or `None` where no plan of values keeps them.
    pub fn distances(&self) -> Option<&Distances>
        ensures { option_map (λ d. d.now) result ≡ self.now.distances }
    {
        self.distances.as_ref()
    }
}

impl Rule for Links {
    ghost meaning = { meaning_of };

    fn columns(&mut self) -> usize {
        self.columns
    }

    fn narrow(&mut self, windows: &mut [Window]) -> Result<Verdict, Fault> {
        match &self.distances {
            None => {
                check_windows(self.columns, windows)?;
                Ok(Verdict::Void)
            }
            Some(distances) => trim_by(distances, windows),
        }
    }
}
