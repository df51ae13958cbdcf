//! What holds of the words, and of the chunks of files.
ghost use Rattle.std.specs.Prelude.{◌≡◌, ◌<◌, ◌≤◌, ◌+◌, ◌*◌, ℕ, List, Some, length, slice_get};
ghost use Rattle.mg_link.specs.Chunks.{chunked};
ghost use Rattle.mg_link.specs.Words.{AreReadBack};
ghost use Rattle.mg_chunks.specs.Sizes.{chunk_count, chunk_length};
ghost use Rattle.mg_records.specs.EventWords.{namespace_type_word, namespace_types, operation_word, operations};

/// Each word of the tables is read back as the value that is written so.
pub fn words_are_read_back()
    ensures operation { AreReadBack operation_word operations operations }
    ensures namespace_type { AreReadBack namespace_type_word namespace_types namespace_types }
{}

/// So many chunks hold the bytes, and one less would not; bytes in chunks of one size are as many, and each has its length.
pub fn chunks_are_counted()
    ensures bounds { (length size : ℕ) → 0 < size → (length ≤ chunk_count length size * size) × (chunk_count length size * size < length + size) }
    ensures count { (size : ℕ) (bytes : List ℕ) → 0 < size → length (chunked size bytes) ≡ chunk_count (length bytes) size }
    ensures lengths { (size n : ℕ) (bytes chunk : List ℕ) → 0 < size → slice_get (chunked size bytes) n ≡ Some chunk → length chunk ≡ chunk_length (length bytes) size n }
{}
