//! The numbers of documents by the values by which the chunks of files are found.
ghost use Rattle.std.specs.declared.alloc.Global.{Global};
ghost use Rattle.std.specs.Prelude.{◌≡◌, ◌++◌, ◌<◌, ℕ, Vec, true, option_map, IfOk, OnOk};
ghost use Rattle.std.specs.BTreeSet.{IsOrdered, contains};
ghost use Rattle.std.specs.List.{list_any};
ghost use Rattle.std.specs.Ordering.{nat_cmp};
ghost use Rattle.mg_bson.specs.Raw.{fields};
ghost use Rattle.mg_query.specs.Grouping.{IsGrouped, KeepsBelow, KeepsOthers, KeepsGroups, StandsAt, chunk_key, file_key, stands};

use crate::filter::raw_key;
use mg_bson::RawDocument;
use mg_link::OutOfMemory;
use std::alloc::Global;
use std::collections::BTreeSet;

/// The encoding of the file of a document.
fn file_key(alloc: Global, document: &RawDocument<'_>) -> Result<Option<Vec<u8>>, OutOfMemory>
    ensures { IfOk result (λ k. option_map (λ v. v.items) k ≡ file_key (fields document.now)) }
{
    match document.get("files_id") {
        Some(found) => Ok(Some(raw_key(alloc, &found)?)),
        None => Ok(None),
    }
}

/// An encoding followed by another.
pub(crate) fn followed(first: &Vec<u8>, second: &Vec<u8>) -> Result<Vec<u8>, OutOfMemory>
    ensures { IfOk result (λ k. k.items ≡ first.now.items ++ second.now.items) }
{
    let mut both = first.clone()?;
    both.extend_from_slice(second.as_slice())?;
    Ok(both)
}

/// That followed by the encoding of its number in the file.
fn chunk_key(alloc: Global, document: &RawDocument<'_>) -> Result<Option<Vec<u8>>, OutOfMemory>
    ensures { IfOk result (λ k. option_map (λ v. v.items) k ≡ chunk_key (fields document.now)) }
{
    let Some(file) = file_key(alloc, document)? else {
        return Ok(None);
    };
    match document.get("n") {
        Some(found) => {
            let n = raw_key(alloc, &found)?;
            Ok(Some(followed(&file, &n)?))
        }
        None => Ok(None),
    }
}

/// Numbers of documents in groups, each by an encoding.
pub(crate) struct Groups {
    numbers: BTreeSet<(Vec<u8>, u64)>,
    /// Whether each document stands there. A change for which there was no memory has left one out.
    pub(crate) is_whole: bool,
}

// By hand, so that letting one go is one call.
impl Drop for Groups {
    fn drop(self) {
        let Groups {
            numbers: _,
            is_whole: _,
        } = self;
    }
}

impl Groups {
    pub(crate) fn new(alloc: Global) -> Groups {
        Groups {
            numbers: BTreeSet::new(alloc),
            is_whole: true,
        }
    }

    fn put_at(&mut self, key: Option<Vec<u8>>, number: u64) -> Result<(), OutOfMemory>
        ensures ok { OnOk result (StandsAt self.new number (option_map (λ k. k.items) key)) }
        ensures kept { KeepsGroups self.old self.new }
    {
        let Some(key) = key else {
            return Ok(());
        };
        self.numbers.insert((key, number))?;
        Ok(())
    }

    /// Puts the number of a document there. An error may leave it in part.
    pub(crate) fn put(
        &mut self,
        alloc: Global,
        document: &RawDocument<'_>,
        number: u64,
    ) -> Result<(), OutOfMemory>
        ensures ok { OnOk result (IsGrouped self.new number (fields document.now)) }
        ensures kept { KeepsGroups self.old self.new }
    {
        let file = file_key(alloc, document)?;
        let chunk = chunk_key(alloc, document)?;
        self.put_at(file, number)?;
        self.put_at(chunk, number)
    }

    fn take_at(&mut self, key: Option<Vec<u8>>, number: u64)
        ensures { KeepsOthers number self.old self.new }
    {
        let Some(key) = key else {
            return;
        };
        let _taken = self.numbers.remove(&(key, number));
    }

    /// Takes the number of a document out, where memory is there to tell its groups.
    pub(crate) fn take(&mut self, alloc: Global, document: &RawDocument<'_>, number: u64)
        ensures { KeepsOthers number self.old self.new }
    {
        let Ok(file) = file_key(alloc, document) else {
            return;
        };
        let Ok(chunk) = chunk_key(alloc, document) else {
            return;
        };
        self.take_at(file, number);
        self.take_at(chunk, number);
    }

    /// Another document has the number from now on.
    pub(crate) fn change(
        &mut self,
        alloc: Global,
        old: &RawDocument<'_>,
        new: &RawDocument<'_>,
        number: u64,
    )
        ensures kept { KeepsOthers number self.old self.new }
        ensures grouped { self.new.is_whole ≡ true → IsGrouped self.new number (fields new.now) }
    {
        self.take(alloc, old, number);
        match self.put(alloc, new, number) {
            Ok(()) => {}
            // Without memory to tell its groups, the collection is scanned from then on.
            Err(_) => self.is_whole = false,
        }
    }

    /// Leaves the numbers below this one.
    pub(crate) fn truncate(&mut self, number: u64)
        ensures { KeepsBelow number self.old self.new }
    {
        self.numbers.retain(|member| member.1 < number);
    }

    fn add_numbers(
        &self,
        key: &Vec<u8>,
        end: u64,
        numbers: &mut BTreeSet<u64>,
    ) -> Result<(), OutOfMemory>
        ensures ordered { IsOrdered nat_cmp numbers.old → IsOrdered nat_cmp numbers.new }
        ensures these { OnOk result ((m : ℕ) → m < end → stands self.now key.now.items m ≡ true → contains nat_cmp numbers.new m ≡ true) }
        ensures kept { (m : ℕ) → contains nat_cmp numbers.old m ≡ true → contains nat_cmp numbers.new m ≡ true }
    {
        let first = (key.clone()?, 0);
        let last = (key.clone()?, end);
        for member in self.numbers.range(first..last) {
            numbers.insert(member.1)?;
        }
        Ok(())
    }

    /// The numbers that stand under these encodings, below the end of them all.
    pub(crate) fn numbers(
        &self,
        alloc: Global,
        keys: &Vec<Vec<u8>>,
        end: u64,
    ) -> Result<BTreeSet<u64>, OutOfMemory>
        ensures { IfOk result (λ ns. IsOrdered nat_cmp ns × ((m : ℕ) → m < end → list_any (λ (k : Vec ℕ Global). stands self.now k.items m) keys.now.items ≡ true → contains nat_cmp ns m ≡ true)) }
    {
        let mut numbers = BTreeSet::new(alloc);
        for key in keys {
            self.add_numbers(key, end, &mut numbers)?;
        }
        Ok(numbers)
    }
}
