//! Records that raw documents are read as.
ghost use Rattle.std.specs.Prelude.{◌≡◌, Ok, Result, IfOk, IfErr, List, ℕ};
ghost use Rattle.mg_link.specs.declared.error.Malformed.{Malformed};
ghost use Rattle.mg_records.specs.Readings.{FailsToRead};

use mg_bson::{Document, RawDocument, RawDocumentBuf, to_document};
use mg_link::Error;
use std::alloc::Global;

/// What a document may be read as.
pub trait ReadRaw: Sized {
    /// What such a record is in a contract.
    ghost Record: { Type 0 };

    /// The record of a value.
    ghost seen: { Self → Record };

    /// The record that the bytes of a document stand for, or how they break its grammar.
    ghost stands_for: { List ℕ → Result Record Malformed };

    /// Reads a document. It fails where memory runs out, or the document stands for no such record.
    fn read_raw(alloc: Global, raw: RawDocument<'_>) -> Result<Self, Error>
        ensures ok { IfOk result (λ r. stands_for raw.entry ≡ Ok (seen r)) }
        ensures err { IfErr result (λ e. FailsToRead (stands_for raw.entry) e) };
}

impl ReadRaw for Document {
    ghost use Rattle.std.specs.Prelude.{Ok};
    ghost use Rattle.mg_bson.specs.Tree.{Fields};
    ghost use Rattle.mg_bson.specs.Raw.{fields};

    ghost Record = { Fields };

    ghost seen = { λ d. d };

    ghost stands_for = { λ bytes. Ok (fields bytes) };

    fn read_raw(alloc: Global, raw: RawDocument<'_>) -> Result<Document, Error> {
        Ok(to_document(alloc, raw)?)
    }
}

impl ReadRaw for RawDocumentBuf {
    ghost use Rattle.std.specs.Prelude.{List, ℕ, Ok};

    ghost Record = { List ℕ };

    ghost seen = { λ r. r };

    ghost stands_for = { λ bytes. Ok bytes };

    fn read_raw(alloc: Global, raw: RawDocument<'_>) -> Result<RawDocumentBuf, Error> {
        Ok(raw.to_buf(alloc)?)
    }
}
