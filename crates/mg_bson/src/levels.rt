//! How deep documents are.
ghost use Rattle.std.specs.Prelude.{◌≡◌, nat_le};
ghost use Rattle.mg_bson.specs.Bytes.{levels as levels_of, tree_depth, fields_depth, items_depth};
ghost use Rattle.mg_bson.specs.View.{tree, fields_of, items_of};

use crate::tree::{Bson, Document, Field};

impl Document {
    /// Whether the document has at most this many levels: itself, and one for each document, array or scope inside
    /// another.
    pub fn is_within(&self, levels: u32) -> bool
        ensures { result ≡ nat_le (levels_of self.now) levels }
    {
        levels > 0 && are_fields_within(&self.fields, levels - 1)
    }
}

#[cycle(levels)]
fn are_fields_within(fields: &[Field], levels: u32) -> bool
    ensures { result ≡ nat_le (fields_depth (fields_of fields.now)) levels }
{
    for field in fields {
        if !is_value_within(&field.value, levels) {
            return false;
        }
    }
    true
}

#[cycle(levels)]
fn are_items_within(items: &[Bson], levels: u32) -> bool
    ensures { result ≡ nat_le (items_depth (items_of items.now)) levels }
{
    for item in items {
        if !is_value_within(item, levels) {
            return false;
        }
    }
    true
}

#[cycle(levels)]
fn is_value_within(value: &Bson, levels: u32) -> bool
    ensures { result ≡ nat_le (tree_depth (tree value.now)) levels }
{
    match value {
        Bson::Document(document) => levels > 0 && are_fields_within(&document.fields, levels - 1),
        Bson::Array(array) => levels > 0 && are_items_within(&array.items, levels - 1),
        Bson::CodeWithScope(code) => levels > 0
            && are_fields_within(&code.scope.fields, levels - 1),
        _ => true,
    }
}
