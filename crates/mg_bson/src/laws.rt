//! What holds of the encoding and the decoding, for the proofs of callers.
ghost use Rattle.std.specs.Prelude.{◌≡◌, ◌<◌, ◌≤◌, ◌^◌, All, List, ℕ, length, false, Some};
ghost use Rattle.mg_bson.specs.Tree.{Tree, Fields};
ghost use Rattle.mg_bson.specs.Bytes.{bytes, value_bytes, kind_of, levels};
ghost use Rattle.mg_bson.specs.Reading.{doc};
ghost use Rattle.mg_bson.specs.Spans.{IsPartOf, array_inside, documents_inside};
ghost use Rattle.mg_bson.specs.Writable.{IsSound, IsWritable, max_levels, fields_have_bad_name};

/// A document that may be written is what its bytes are read as.
pub fn read_after_write()
    ensures { (d : Fields) → IsWritable d → doc (bytes d) ≡ Some d }
{}

/// Documents that may be written and have the same bytes are the same.
pub fn written_once()
    ensures { (d e : Fields) → IsWritable d → IsWritable e → bytes d ≡ bytes e → d ≡ e }
{}

/// Values of one kind with the same bytes are the same. The bytes of a value alone do not tell its
/// kind.
pub fn same_bytes()
    ensures { (t u : Tree) → IsSound t → IsSound u → length (value_bytes t) < 2 ^ 31
        → kind_of t ≡ kind_of u → value_bytes t ≡ value_bytes u → t ≡ u }
{}

/// A document that was read has at most 100 levels, and no name or text of a regular expression with the character 0. So
/// [`to_bytes`](crate::to_bytes) can refuse it for its size alone.
pub fn read_within_limits()
    ensures { (bs : List ℕ) (d : Fields) → doc bs ≡ Some d → (levels d ≤ max_levels) × (fields_have_bad_name d ≡ false) }
{}

/// An array inside a document is a part of its bytes, and so is each document of an array.
pub fn lies_inside()
    ensures array { (outer name bs a : List ℕ) → array_inside outer name bs ≡ Some a → IsPartOf a bs }
    ensures documents { (bs : List ℕ) (ds : List (List ℕ)) → documents_inside bs ≡ Some ds → All (λ d. IsPartOf d bs) ds }
{}
