//! The documents of an array that lies inside a document.
ghost use Rattle.std.specs.Prelude.{◌≡◌, ◌↔◌, IsTrue, [], option_map, option_and_then, is_some};
ghost use Rattle.mg_bson.specs.Raw.{fields, items};
ghost use Rattle.mg_bson.specs.Spans.{array_inside, documents_inside, items_inside};
ghost use Rattle.mg_bson.specs.Walks.{advanced, before, front_of, passed_over};

use crate::raw::{RawArray, RawDocument, RawDocumentBuf};
use crate::read::split_known;
use crate::span::{are_documents, elements_inside, span_inside};
use std::marker::Model;

/// The documents of an array inside a document, with a place among them. It owns the document, lends the current one of its
/// documents, and takes no memory to go on to the next.
///
///     let mut documents = RawDocuments::new(reply, "cursor", "firstBatch")?;
///     while documents.advance() {
///         let document = documents.current()?;
///     }
#[derive(Debug)]
pub struct RawDocuments {
    document: RawDocumentBuf,
    // Where the current one begins and ends. There is none where both are the same.
    begin: usize,
    upto: usize,
    // Where the elements behind it begin, and where they end.
    next: usize,
    end: usize,
}

// By hand, so that letting one go is one call.
impl Drop for RawDocuments {
    fn drop(self) {
        let RawDocuments {
            document: _,
            begin: _,
            upto: _,
            next: _,
            end: _,
        } = self;
    }
}

impl Model for RawDocuments {
    ghost use Rattle.mg_bson.specs.Walks.{IsWalk, Walk, walk_at};

    ghost Value = { Walk };

    ghost view = { λ d. walk_at d.document d.begin d.upto d.next d.end };

    ghost invariant = { λ d. IsWalk d.document d.begin d.upto d.next d.end };
}

impl RawDocuments {
    /// Before the first document of the array `name`, inside the document `outer` of this document. None where there is no
    /// such array, or where one of its values is no document.
    pub fn new(document: RawDocumentBuf, outer: &str, name: &str) -> Option<RawDocuments>
        ensures { result ≡ option_map (before document) (option_and_then documents_inside (array_inside outer.now name.now document)) }
    {
        let bytes = document.as_raw().as_bytes();
        let elements = elements_inside(bytes, outer, name)?;
        if !are_documents(&bytes[elements.from..elements.upto]) {
            return None;
        }
        Some(RawDocuments {
            document,
            begin: elements.from,
            upto: elements.from,
            next: elements.from,
            end: elements.upto,
        })
    }

    /// Goes on to the next document, and says whether there is one. Where none is left, none is current.
    #[inline(always)]
    pub fn advance(&mut self) -> bool
        ensures state { self.new ≡ advanced self.old }
        ensures there { result ≡ is_some self.new.current }
    {
        let bytes = self.document.as_bytes();
        let Some(element) = split_known(&bytes[self.next..self.end]) else {
            self.begin = self.upto;
            return false;
        };
        let behind = element.rest.len();
        let len = element.value.len();
        self.next = self.end - behind;
        self.upto = self.next;
        self.begin = self.next - len;
        true
    }

    /// The document behind the current one, a part of the document's own bytes.
    pub fn front(&self) -> Option<RawDocument<'_>>
        ensures { result ≡ front_of self.now.behind }
    {
        let bytes = self.document.as_bytes();
        match split_known(&bytes[self.next..self.end]) {
            Some(element) => Some(RawDocument::checked(element.value)),
            None => None,
        }
    }

    /// Leaves out the document behind the current one, which stays the current one.
    pub fn pass_over(&mut self)
        ensures { self.new ≡ passed_over self.old }
    {
        let bytes = self.document.as_bytes();
        if let Some(element) = split_known(&bytes[self.next..self.end]) {
            let behind = element.rest.len();
            self.next = self.end - behind;
        }
    }

    /// The current document, a part of the document's own bytes.
    #[inline(always)]
    pub fn current(&self) -> Option<RawDocument<'_>>
        ensures { result ≡ self.now.current }
    {
        if self.begin < self.upto {
            let bytes = &self.document.as_bytes()[self.begin..self.upto];
            Some(RawDocument::checked(bytes))
        } else {
            None
        }
    }

    /// Whether no document is left behind the current one.
    pub fn is_last(&self) -> bool
        ensures { IsTrue result ↔ (self.now.behind ≡ []) }
    {
        self.next == self.end
    }

    /// The whole document.
    pub fn as_raw(&self) -> RawDocument<'_>
        ensures { result ≡ self.now.whole }
    {
        self.document.as_raw()
    }
}

impl<'a> RawDocument<'a> {
    /// The array `name` inside the document `outer`, by the first values of these names. It is a part of the document's own
    /// bytes.
    pub fn array_inside(&self, outer: &str, name: &str) -> Option<RawArray<'a>>
        ensures bytes { result ≡ array_inside outer.now name.now self.now }
        ensures values { option_map items result ≡ items_inside outer.now name.now (fields self.now) }
    {
        let bytes = self.as_bytes();
        let array = span_inside(bytes, outer, name)?;
        Some(RawArray::checked(&bytes[array.from..array.upto]))
    }
}
