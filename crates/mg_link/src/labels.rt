//! The labels that a server gives an error.
ghost use Rattle.std.specs.Prelude.{◌≡◌, [], map, string_bytes};
ghost use Rattle.mg_link.specs.Labels.{has_label};

use std::marker::Model;

/// The labels that a server gave an error, in its order. An empty list takes no memory.
#[derive(Drop)]
pub struct Labels {
    words: Option<Vec<String>>,
}

impl Model for Labels {
    ghost use Rattle.std.specs.Prelude.{List, ℕ};
    ghost use Rattle.mg_link.specs.Labels.{words_of};

    ghost Value = { List (List ℕ) };

    ghost view = { λ l. words_of l.words };
}

impl Labels {
    /// No labels.
    pub fn none() -> Labels
        ensures { result ≡ [] }
    {
        Labels { words: None }
    }

    /// These labels.
    pub fn from_vec(words: Vec<String>) -> Labels
        ensures { result ≡ map string_bytes words.items }
    {
        Labels { words: Some(words) }
    }

    /// The labels, in their order.
    pub fn as_slice(&self) -> &[String]
        ensures { map string_bytes result.now ≡ self.now }
    {
        match &self.words {
            Some(words) => words.as_slice(),
            None => &[],
        }
    }

    /// Whether this label is among them.
    pub fn contains(&self, label: &str) -> bool
        ensures { result ≡ has_label label.now self.now }
    {
        for word in self.as_slice() {
            if label == word.as_str() {
                return true;
            }
        }
        false
    }
}
