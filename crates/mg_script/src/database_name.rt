//! Names of databases.
ghost use Rattle.std.specs.Prelude.{◌≡◌, Some, string_bytes};
ghost use Rattle.mg_link.specs.Namespace.{as_database};

use crate::parts::has_dot;
use std::marker::Model;

/// The name of a database: it is not empty and has no dot. In a contract it is its bytes.
#[derive(Debug, Drop)]
pub struct DatabaseName {
    text: String,
}

impl Model for DatabaseName {
    ghost use Rattle.std.specs.Prelude.{◌≡◌, List, ℕ, Some, string_bytes};
    ghost use Rattle.mg_link.specs.Namespace.{as_database};

    ghost Value = { List ℕ };

    ghost view = { λ n. string_bytes n.text };

    ghost invariant = { λ n. as_database (string_bytes n.text) ≡ Some (string_bytes n.text) };
}

impl DatabaseName {
    /// The name, where the text may be one.
    pub fn new(text: String) -> Option<DatabaseName>
        ensures { result ≡ as_database (string_bytes text) }
    {
        if text.is_empty() || has_dot(text.as_str()) {
            None
        } else {
            Some(DatabaseName { text })
        }
    }

    /// Lends the text.
    pub fn as_str(&self) -> &str
        ensures text { result.now ≡ self.now }
        ensures named { as_database self.now ≡ Some self.now }
    {
        self.text.as_str()
    }

    /// The text, without a copy.
    pub fn into_string(self) -> String
        ensures text { string_bytes result ≡ self }
        ensures named { as_database self ≡ Some self }
    {
        self.text
    }
}
