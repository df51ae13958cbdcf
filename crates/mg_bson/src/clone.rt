//! `clone`, written by hand: a derived one would promise nothing of a type that holds itself.
ghost use Rattle.std.specs.Prelude.{◌≡◌, IfOk, string_bytes};
ghost use Rattle.mg_bson.specs.Tree.{scoped};
ghost use Rattle.mg_bson.specs.View.{tree, fields_of, items_of};

use crate::tree::{Array, Bson, CodeWithScope, Document, Field};
use std::alloc::AllocError;

impl Clone for Document {
    ghost is_clone = { λ v w. w ≡ v };

    fn clone(&self) -> Result<Document, AllocError> {
        copy_document(self)
    }
}

impl Clone for Array {
    ghost is_clone = { λ v w. w ≡ v };

    fn clone(&self) -> Result<Array, AllocError> {
        copy_array(self)
    }
}

impl Clone for CodeWithScope {
    ghost is_clone = { λ v w. (string_bytes w.code ≡ string_bytes v.code) × (w.scope ≡ v.scope) };

    fn clone(&self) -> Result<CodeWithScope, AllocError> {
        let code = self.code.clone()?;
        let scope = self.scope.clone()?;
        Ok(CodeWithScope { code, scope })
    }
}

impl Clone for Bson {
    ghost is_clone = { λ v w. tree w ≡ tree v };

    fn clone(&self) -> Result<Bson, AllocError> {
        copy_value(self)
    }
}

#[cycle(copy)]
fn copy_document(document: &Document) -> Result<Document, AllocError>
    ensures { IfOk result (λ d. d ≡ document.now) }
{
    let mut fields = Vec::with_capacity(*document.fields.allocator(), document.fields.len())?;
    for field in &document.fields {
        fields.push(copy_field(field)?)?;
    }
    Ok(Document { fields })
}

#[cycle(copy)]
fn copy_field(field: &Field) -> Result<Field, AllocError>
    ensures { IfOk result (λ f. (f.name ≡ field.now.name) × (tree f.value ≡ tree field.now.value)) }
{
    let name = field.name.clone()?;
    let value = copy_value(&field.value)?;
    Ok(Field { name, value })
}

#[cycle(copy)]
fn copy_array(array: &Array) -> Result<Array, AllocError>
    ensures { IfOk result (λ a. a ≡ array.now) }
{
    let mut items = Vec::with_capacity(*array.items.allocator(), array.items.len())?;
    for item in &array.items {
        items.push(copy_value(item)?)?;
    }
    Ok(Array { items })
}

#[cycle(copy)]
fn copy_value(value: &Bson) -> Result<Bson, AllocError>
    ensures { IfOk result (λ v. tree v ≡ tree value.now) }
{
    match value {
        Bson::Double(v) => Ok(Bson::Double(*v)),
        Bson::String(text) => text.clone().map(Bson::String),
        Bson::Document(d) => copy_document(d).map(Bson::Document),
        Bson::Array(a) => copy_array(a).map(Bson::Array),
        Bson::Binary(b) => b.clone().map(Bson::Binary),
        Bson::Undefined => Ok(Bson::Undefined),
        Bson::ObjectId(id) => Ok(Bson::ObjectId(*id)),
        Bson::Boolean(b) => Ok(Bson::Boolean(*b)),
        Bson::DateTime(t) => Ok(Bson::DateTime(*t)),
        Bson::Null => Ok(Bson::Null),
        Bson::Regex(r) => r.clone().map(Bson::Regex),
        Bson::DbPointer(p) => p.clone().map(Bson::DbPointer),
        Bson::Code(text) => text.clone().map(Bson::Code),
        Bson::Symbol(text) => text.clone().map(Bson::Symbol),
        Bson::CodeWithScope(c) => copy_scoped(c),
        Bson::Int32(n) => Ok(Bson::Int32(*n)),
        Bson::Timestamp(t) => Ok(Bson::Timestamp(*t)),
        Bson::Int64(n) => Ok(Bson::Int64(*n)),
        Bson::Decimal128(v) => Ok(Bson::Decimal128(*v)),
        Bson::MinKey => Ok(Bson::MinKey),
        Bson::MaxKey => Ok(Bson::MaxKey),
    }
}

#[cycle(copy)]
fn copy_scoped(source: &CodeWithScope) -> Result<Bson, AllocError>
    ensures { IfOk result (λ v. tree v ≡ scoped (string_bytes source.now.code) source.now.scope) }
{
    let code = source.code.clone()?;
    let scope = copy_document(&source.scope)?;
    let alloc = *source.code.allocator();
    Ok(Bson::CodeWithScope(Box::new(alloc, CodeWithScope { code, scope })?))
}
