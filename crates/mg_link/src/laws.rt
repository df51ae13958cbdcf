//! What holds of the definitions.
ghost use Rattle.std.specs.Prelude.{◌≡◌, ◌+◌, ◌<◌, ◌^◌, ℕ, List};
ghost use Rattle.mg_link.specs.Concerns.{level_word, levels, preference_word, preferences};
ghost use Rattle.mg_link.specs.Ids.{counted_id};
ghost use Rattle.mg_link.specs.Words.{AreReadBack};

/// Any 2^64 ids that a counter gives in a row differ.
pub fn counted_ids_differ()
    ensures { (prefix : List ℕ) (first i j : ℕ) → i < 2 ^ 64 → j < 2 ^ 64
        → counted_id prefix (first + i) ≡ counted_id prefix (first + j) → i ≡ j }
{}

/// Each word of the tables is read back as the value that is written so: levels of read concerns, and read preferences.
pub fn words_are_read_back()
    ensures levels { AreReadBack level_word levels levels }
    ensures preferences { AreReadBack preference_word preferences preferences }
{}
