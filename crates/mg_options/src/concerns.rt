//! The concerns of a command.
ghost use Rattle.std.specs.Prelude.{◌≡◌, None, OnOk, OnErr, IfErr};
ghost use Rattle.mg_bson.specs.Find.{joined};
ghost use Rattle.mg_options.specs.Fields.{FailsBy, fields_in, first_unfit};
ghost use Rattle.mg_options.specs.Shown.{concern_lines};

use crate::field::append_given;
use crate::printing::Value;
use mg_bson::Document;
use mg_link::{Error, ReadConcern, SelectionCriteria, WriteConcern};
use std::alloc::Global;

/// Puts what data is read, how far a write is to have come and which servers may be asked at the end of a command, where
/// they are given. The primary alone is left out. A number outside its range is an error; after an error the command is
/// as it was.
pub fn append_concerns<'a>(
    alloc: Global,
    command: &mut Document,
    reads: &'a Option<ReadConcern>,
    writes: &'a Option<WriteConcern>,
    asks: Option<SelectionCriteria>,
) -> Result<(), Error>
    ensures ok { OnOk result (command.new ≡ joined command.old (fields_in (concern_lines reads.now writes.now asks))) }
    ensures fits { OnOk result (first_unfit (concern_lines reads.now writes.now asks) ≡ None) }
    ensures same { OnErr result (command.new ≡ command.old) }
    ensures err { IfErr result (λ e. FailsBy (first_unfit (concern_lines reads.now writes.now asks)) e) }
{
    append_given(
        alloc,
        command,
        &[
            ("readConcern", Value::ReadConcern(reads)),
            ("writeConcern", Value::WriteConcern(writes)),
            ("$readPreference", Value::Selection(asks)),
        ],
    )
}
