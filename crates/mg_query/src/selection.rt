//! The conditions of a filter, as they test many documents.
ghost use Rattle.std.specs.Prelude.{◌≡◌, ℕ, IfOk, List, map};
ghost use Rattle.mg_bson.specs.Raw.{fields};
ghost use Rattle.mg_bson.specs.Tree.{Fields};
ghost use Rattle.mg_query.specs.Asking.{held, is_key_among, matches_keys, meets_keys};
ghost use Rattle.mg_query.specs.Selecting.{held_test, selecting};

use crate::filter::{Condition, raw_key};
use mg_bson::RawDocument;
use mg_link::OutOfMemory;
use std::alloc::Global;
use std::collections::BTreeSet;

/// A condition whose encodings stand in order.
struct Test<'a> {
    name: &'a str,
    keys: BTreeSet<Vec<u8>>,
}

// By hand, so that letting one go is one call.
impl Drop for Test<'_> {
    fn drop(self) {
        let Test { name: _, keys: _ } = self;
    }
}

impl Test<'_> {
    fn admits(&self, alloc: Global, document: &RawDocument<'_>) -> Result<bool, OutOfMemory>
        ensures { IfOk result (λ b. b ≡ meets_keys (held_test self.now) (fields document.now)) }
    {
        match document.get(self.name) {
            Some(found) => {
                let key = raw_key(alloc, &found)?;
                Ok(self.keys.contains(&key))
            }
            None => Ok(false),
        }
    }
}

fn ordered(alloc: Global, keys: &Vec<Vec<u8>>) -> Result<BTreeSet<Vec<u8>>, OutOfMemory>
    ensures { IfOk result (λ s. (k : List ℕ) → is_key_among k (map (λ l. l.items) s.keys) ≡ is_key_among k (map (λ l. l.items) keys.now.items)) }
{
    let mut ordered = BTreeSet::new(alloc);
    for key in keys {
        let copy = key.clone()?;
        ordered.insert(copy)?;
    }
    Ok(ordered)
}

/// The conditions of a filter, each of which is tested in a logarithm of its values.
pub struct Selection<'a> {
    tests: Vec<Test<'a>>,
}

// By hand, so that letting one go is one call.
impl Drop for Selection<'_> {
    fn drop(self) {
        let Selection { tests: _ } = self;
    }
}

impl Selection<'_> {
    /// The conditions of a filter, with the values of each in order.
    pub fn new(alloc: Global, conditions: &Vec<Condition>) -> Result<Selection<'_>, OutOfMemory>
        ensures { IfOk result (λ s. (d : Fields) → matches_keys (selecting s) d ≡ matches_keys (map held conditions.now.items) d) }
    {
        let mut tests = Vec::new(alloc);
        for condition in conditions {
            let keys = ordered(alloc, &condition.keys)?;
            let name = condition.name.as_str();
            tests.push(Test { name, keys })?;
        }
        Ok(Selection { tests })
    }

    /// Whether the document meets each condition.
    pub fn admits(&self, alloc: Global, document: &RawDocument<'_>) -> Result<bool, OutOfMemory>
        ensures { IfOk result (λ b. b ≡ matches_keys (selecting self.now) (fields document.now)) }
    {
        for test in &self.tests {
            if !test.admits(alloc, document)? {
                return Ok(false);
            }
        }
        Ok(true)
    }
}
