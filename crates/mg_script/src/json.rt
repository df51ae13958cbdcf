//! The JSON text of a value, beside the reading of one.
ghost use Rattle.std.specs.Prelude.{◌≡◌, IfOk, IfErr, string_bytes};
ghost use Rattle.mg_bson.specs.View.{tree};
ghost use Rattle.mg_link.specs.Errors.{plain};
ghost use Rattle.mg_link.specs.declared.error.ErrorKind.TheVariants as kinds;
ghost use Rattle.mg_json.specs.Json.{value_text};

use mg_bson::Bson;
use mg_json::value_text;
use mg_link::Error;
use std::alloc::Global;

/// The text that a value prints as: `value_text` of `mg_json`, for callers whose calls fail with
/// an `Error`. It fails for want of memory alone.
pub fn json_text(alloc: Global, value: &Bson) -> Result<String, Error>
    ensures text { IfOk result (λ s. string_bytes s ≡ value_text (tree value.now)) }
    ensures err { IfErr result (λ e. e ≡ plain kinds.OutOfMemory) }
{
    Ok(value_text(alloc, value)?)
}
