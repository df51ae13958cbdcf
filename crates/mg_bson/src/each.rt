//! Documents and arrays, gone through by `for` and by the methods of iterators.
ghost use Rattle.std.specs.Prelude.{◌≡◌, [], ◌∷◌, length, MatchOption};
ghost use Rattle.std.specs.Iterator.{at_most};
ghost use Rattle.mg_bson.specs.Tree.{no_fields, field, no_items, item};
ghost use Rattle.mg_bson.specs.Find.{fields_length, items_length};
ghost use Rattle.mg_bson.specs.Raw.{fields, items, fields_left, items_left};
ghost use Rattle.mg_bson.specs.RawView.{value};
ghost use Rattle.mg_bson.specs.View.{tree};

use crate::raw::{RawArray, RawDocument, RawItems, RawIter, RawValue};
use crate::tree::{Array, ArrayIter, Bson, Document, DocumentIter, DocumentKeys};

impl<'a> Iterator for DocumentIter<'a> {
    type Item = (&'a str, &'a Bson);

    ghost next_gives = { λ left next rest. MatchOption next ((left ≡ no_fields) × (rest ≡ no_fields))
        (λ r. left ≡ field r.0.now (tree r.1.now) rest) };

    ghost remaining = { λ left. at_most (fields_length left) };

    fn next(&mut self) -> Option<(&'a str, &'a Bson)> {
        DocumentIter::next(self)
    }
}

impl<'a> Iterator for DocumentKeys<'a> {
    type Item = &'a str;

    ghost next_gives = { λ left next rest. MatchOption next ((left ≡ []) × (rest ≡ [])) (λ k. left ≡ k.now ∷ rest) };

    ghost remaining = { λ left. at_most (length left) };

    fn next(&mut self) -> Option<&'a str> {
        DocumentKeys::next(self)
    }
}

impl<'a> Iterator for ArrayIter<'a> {
    type Item = &'a Bson;

    ghost next_gives = { λ left next rest. MatchOption next ((left ≡ no_items) × (rest ≡ no_items))
        (λ v. left ≡ item (tree v.now) rest) };

    ghost remaining = { λ left. at_most (items_length left) };

    fn next(&mut self) -> Option<&'a Bson> {
        ArrayIter::next(self)
    }
}

impl<'a> Iterator for RawIter<'a> {
    type Item = (&'a str, RawValue<'a>);

    ghost next_gives = { λ left next rest. MatchOption next ((fields_left left ≡ no_fields) × (fields_left rest ≡ no_fields))
        (λ r. fields_left left ≡ field r.0.now (value r.1) (fields_left rest)) };

    ghost remaining = { λ left. at_most (fields_length (fields_left left)) };

    #[inline(always)]
    fn next(&mut self) -> Option<(&'a str, RawValue<'a>)> {
        RawIter::next(self)
    }
}

impl<'a> Iterator for RawItems<'a> {
    type Item = RawValue<'a>;

    ghost next_gives = { λ left next rest. MatchOption next ((items_left left ≡ no_items) × (items_left rest ≡ no_items))
        (λ v. items_left left ≡ item (value v) (items_left rest)) };

    ghost remaining = { λ left. at_most (items_length (items_left left)) };

    #[inline(always)]
    fn next(&mut self) -> Option<RawValue<'a>> {
        RawItems::next(self)
    }
}

impl<'a> IntoIterator for &'a Document {
    type Item = (&'a str, &'a Bson);

    type IntoIter = DocumentIter<'a>;

    ghost into_iter_gives = { λ document left. left ≡ document.now };

    fn into_iter(self) -> DocumentIter<'a> {
        self.iter()
    }
}

impl<'a> IntoIterator for &'a Array {
    type Item = &'a Bson;

    type IntoIter = ArrayIter<'a>;

    ghost into_iter_gives = { λ array left. left ≡ array.now };

    fn into_iter(self) -> ArrayIter<'a> {
        self.iter()
    }
}

impl<'a, 'b> IntoIterator for &'b RawDocument<'a> {
    type Item = (&'a str, RawValue<'a>);

    type IntoIter = RawIter<'a>;

    ghost into_iter_gives = { λ document left. fields_left left ≡ fields document.now };

    fn into_iter(self) -> RawIter<'a> {
        self.iter()
    }
}

impl<'a, 'b> IntoIterator for &'b RawArray<'a> {
    type Item = RawValue<'a>;

    type IntoIter = RawItems<'a>;

    ghost into_iter_gives = { λ array left. items_left left ≡ items array.now };

    fn into_iter(self) -> RawItems<'a> {
        self.iter()
    }
}
