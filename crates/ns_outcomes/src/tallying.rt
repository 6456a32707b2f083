//! Distinct outcomes, and how many seeds came to each.

ghost use Rattle.std.specs.Prelude.{◌≡◌, ℕ, ◌+◌, ◌<◌, ◌^◌, List, [], map, IfOk, OnOk, IfSome, string_bytes, string_cmp};
ghost use Rattle.std.specs.BTreeMap.{IsOrdered, get_by_text};
ghost use Rattle.ns_outcomes.specs.Tallies.{CountsOnceMore, HasCounted, IsTally, found_of};

use std::alloc::{AllocError, Global};
use std::cmp::Reverse;
use std::collections::BTreeMap;

/// A distinct outcome.
#[derive(Drop)]
pub struct Found {
    /// The outcome.
    pub text: String,
    /// How many seeds came to it.
    pub count: u32,
    /// The first of them.
    pub first: u64,
}

/// What is counted of an outcome.
#[derive(Clone, Copy)]
struct Count {
    /// How many seeds came to it.
    count: u32,
    /// The first of them.
    first: u64,
}

/// What is counted of the distinct outcomes, by their text.
#[derive(Drop)]
pub struct Counts {
    by_text: BTreeMap<String, Count>,
}

impl Counts {
    /// No outcome.
    pub fn new(alloc: Global) -> Counts
        ensures { (from : ℕ) → HasCounted from [] result }
    {
        Counts {
            by_text: BTreeMap::new(alloc),
        }
    }

    /// Counts the outcome of a seed. Needs room for one more in the count of the outcome.
    pub fn count(&mut self, text: String, seed: u64) -> Result<(), AllocError>
        requires { IfSome (get_by_text self.old.by_text (string_bytes text)) (λ before. before.count + 1 < 2 ^ 32) }
        ensures { OnOk result (CountsOnceMore self.old (string_bytes text) seed self.new) }
    {
        let counted = match self.by_text.get(text.as_str()).copied() {
            Some(before) => Count {
                count: before.count + 1,
                first: before.first,
            },
            None => Count {
                count: 1,
                first: seed,
            },
        };
        self.by_text.insert(text, counted)?;
        Ok(())
    }

    /// The outcomes, by their texts in ascending order.
    fn listed(self, alloc: Global) -> Result<Vec<Found>, AllocError>
        ensures ordered { IsOrdered string_cmp self.by_text }
        ensures ok { IfOk result (λ found. found.items ≡ map found_of self.by_text.entries) }
    {
        self.by_text
            .into_iter()
            .map(|(text, counted)| Found {
                text,
                count: counted.count,
                first: counted.first,
            })
            .collect(alloc)
    }

    /// The outcomes, the most frequent first, and of equals the one with the lower first seed.
    pub fn found(self, alloc: Global) -> Result<Vec<Found>, AllocError>
        ensures { IfOk result (λ found. (from : ℕ) (runs : List (List ℕ)) → HasCounted from runs self → IsTally from runs found.items) }
    {
        let mut found = self.listed(alloc)?;
        found.sort_by_key(|found| (Reverse(found.count), found.first))?;
        Ok(found)
    }
}
