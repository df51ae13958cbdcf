//! `==`, written by hand: a derived one cannot be had of a type that holds itself.
ghost use Rattle.std.specs.Prelude.{◌≡◌, ◌↔◌, IsTrue, true};
ghost use Rattle.std.specs.Cmp.{decided, on_equiv, on_per, partial_equiv_from_equiv};
ghost use Rattle.mg_bson.specs.Same.{tree_eq, tree_eq-decides, fields_eq, fields_eq-decides, items_eq, items_eq-decides};
ghost use Rattle.mg_bson.specs.Plain.{is_plain};
ghost use Rattle.mg_bson.specs.View.{tree};

use crate::tree::{Array, Bson, Document};

impl PartialEq for Document {
    ghost eq = { fields_eq };

    ghost laws = { partial_equiv_from_equiv (decided fields_eq fields_eq-decides) };

    fn eq(&self, other: &Document) -> bool
        ensures value { result ≡ fields_eq self.now other.now }
        ensures same { IsTrue result ↔ (self.now ≡ other.now) }
    {
        same_document(self, other)
    }
}

impl Eq for Document {
    ghost laws = { decided fields_eq fields_eq-decides };
}

impl PartialEq for Array {
    ghost eq = { items_eq };

    ghost laws = { partial_equiv_from_equiv (decided items_eq items_eq-decides) };

    fn eq(&self, other: &Array) -> bool
        ensures value { result ≡ items_eq self.now other.now }
        ensures same { IsTrue result ↔ (self.now ≡ other.now) }
    {
        same_array(self, other)
    }
}

impl Eq for Array {
    ghost laws = { decided items_eq items_eq-decides };
}

impl PartialEq for Bson {
    ghost eq = { λ a b. tree_eq (tree a) (tree b) };

    ghost laws = { on_per tree (partial_equiv_from_equiv (decided tree_eq tree_eq-decides)) };

    fn eq(&self, other: &Bson) -> bool
        ensures value { result ≡ tree_eq (tree self.now) (tree other.now) }
        ensures same { IsTrue result ↔ (tree self.now ≡ tree other.now) }
    {
        same_value(self, other)
    }
}

impl Eq for Bson {
    ghost laws = { on_equiv tree (decided tree_eq tree_eq-decides) };
}

#[cycle(same)]
fn same_document(a: &Document, b: &Document) -> bool
    ensures { IsTrue result ↔ (a.now ≡ b.now) }
{
    let mut left = a.iter();
    let mut right = b.iter();
    while let Some((name, value)) = left.next() {
        match right.next() {
            Some((other_name, other)) => {
                if name != other_name || !same_value(value, other) {
                    return false;
                }
            }
            None => return false,
        }
    }
    right.next().is_none()
}

#[cycle(same)]
fn same_array(a: &Array, b: &Array) -> bool
    ensures { IsTrue result ↔ (a.now ≡ b.now) }
{
    let mut left = a.iter();
    let mut right = b.iter();
    while let Some(value) = left.next() {
        match right.next() {
            Some(other) => {
                if !same_value(value, other) {
                    return false;
                }
            }
            None => return false,
        }
    }
    right.next().is_none()
}

#[cycle(same)]
fn same_value(a: &Bson, b: &Bson) -> bool
    ensures { IsTrue result ↔ (tree a.now ≡ tree b.now) }
{
    match a {
        Bson::Document(a) => match b {
            Bson::Document(b) => same_document(a, b),
            _ => false,
        },
        Bson::Array(a) => match b {
            Bson::Array(b) => same_array(a, b),
            _ => false,
        },
        Bson::CodeWithScope(a) => match b {
            Bson::CodeWithScope(b) => a.code == b.code && same_document(&a.scope, &b.scope),
            _ => false,
        },
        _ => same_plain(a, b),
    }
}

// Whether a value that holds no others is the same as another.
fn same_plain(a: &Bson, b: &Bson) -> bool
    requires { is_plain (tree a.now) ≡ true }
    ensures { IsTrue result ↔ (tree a.now ≡ tree b.now) }
{
    match (a, b) {
        (Bson::Double(a), Bson::Double(b)) => a == b,
        (Bson::String(a), Bson::String(b)) => a == b,
        (Bson::Binary(a), Bson::Binary(b)) => a == b,
        (Bson::ObjectId(a), Bson::ObjectId(b)) => a == b,
        (Bson::Boolean(a), Bson::Boolean(b)) => a == b,
        (Bson::DateTime(a), Bson::DateTime(b)) => a == b,
        (Bson::Regex(a), Bson::Regex(b)) => a == b,
        (Bson::DbPointer(a), Bson::DbPointer(b)) => a == b,
        (Bson::Code(a), Bson::Code(b)) => a == b,
        (Bson::Symbol(a), Bson::Symbol(b)) => a == b,
        (Bson::Int32(a), Bson::Int32(b)) => a == b,
        (Bson::Timestamp(a), Bson::Timestamp(b)) => a == b,
        (Bson::Int64(a), Bson::Int64(b)) => a == b,
        (Bson::Decimal128(a), Bson::Decimal128(b)) => a == b,
        (Bson::Undefined, Bson::Undefined)
        | (Bson::Null, Bson::Null)
        | (Bson::MinKey, Bson::MinKey)
        | (Bson::MaxKey, Bson::MaxKey) => true,
        _ => false,
    }
}
