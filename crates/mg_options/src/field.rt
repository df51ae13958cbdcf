//! Fields of option records, which stand in a document only where they are given.
ghost use Rattle.std.specs.Prelude.{◌≡◌, [], ◌∷◌, None, OnOk, OnErr, IfOk, IfErr, option_map};
ghost use Rattle.mg_bson.specs.Find.{joined};
ghost use Rattle.mg_bson.specs.View.{tree};
ghost use Rattle.mg_options.specs.Fields.{FailsBy, Shown, fields_in, first_unfit, given, line, lines, unfit_of};

use mg_bson::{Bson, Document};
use mg_link::Error;
use std::alloc::Global;

/// What may be given to a field.
pub trait Print {
    /// What the field comes to.
    ghost shown: { Self → Shown };

    /// The value of the field, where it is given. It fails where memory runs out, or the argument is outside its range.
    fn print(&self, alloc: Global) -> Result<Option<Bson>, Error>
        ensures ok { IfOk result (λ v. shown self.now ≡ given (option_map tree v)) }
        ensures err { IfErr result (λ e. FailsBy (unfit_of (shown self.now)) e) };
}

// Puts one field at the end.
fn put<V: Print>(alloc: Global, body: &mut Document, name: &str, value: &V) -> Result<(), Error>
    ensures ok { OnOk result (body.new ≡ joined body.old (fields_in (line name.now (V.shown value.now) ∷ []))) }
    ensures fits { OnOk result (unfit_of (V.shown value.now) ≡ None) }
    ensures err { IfErr result (λ e. FailsBy (unfit_of (V.shown value.now)) e) }
{
    match value.print(alloc)? {
        Some(value) => Ok(body.append(name, value)?),
        None => Ok(()),
    }
}

/// Puts the fields that are given at the end, in their order, without a copy of what stands there. It fails where memory runs
/// out, or an argument is outside its range; what the document holds after an error is not said.
pub fn put_given<V: Print>(
    alloc: Global,
    body: &mut Document,
    list: &[(&str, V)],
) -> Result<(), Error>
    ensures ok { OnOk result (body.new ≡ joined body.old (fields_in (lines V.shown list.now))) }
    ensures fits { OnOk result (first_unfit (lines V.shown list.now) ≡ None) }
    ensures err { IfErr result (λ e. FailsBy (first_unfit (lines V.shown list.now)) e) }
{
    for field in list {
        put(alloc, body, field.0, &field.1)?;
    }
    Ok(())
}

/// Puts the fields that are given at the end, in their order. It fails where memory runs out, or an argument is outside
/// its range; after an error the document is as it was.
pub fn append_given<V: Print>(
    alloc: Global,
    body: &mut Document,
    list: &[(&str, V)],
) -> Result<(), Error>
    ensures ok { OnOk result (body.new ≡ joined body.old (fields_in (lines V.shown list.now))) }
    ensures fits { OnOk result (first_unfit (lines V.shown list.now) ≡ None) }
    ensures same { OnErr result (body.new ≡ body.old) }
    ensures err { IfErr result (λ e. FailsBy (first_unfit (lines V.shown list.now)) e) }
{
    let mut whole = body.clone()?;
    put_given(alloc, &mut whole, list)?;
    *body = whole;
    Ok(())
}
