//! Which servers a read may ask.
ghost use Rattle.std.specs.Prelude.{◌≡◌};
ghost use Rattle.mg_link.specs.Concerns.{preference_word, preferences};
ghost use Rattle.mg_link.specs.Words.{named, text};

/// Which servers of a replica set a read may ask (drivers' specification of server selection, "Mode").
#[derive(Clone, Copy, Debug, PartialEq, Eq)]
pub enum ReadPreference {
    /// The primary alone.
    Primary,
    /// The primary, or a secondary where there is none.
    PrimaryPreferred,
    /// A secondary.
    Secondary,
    /// A secondary, or the primary where there is none.
    SecondaryPreferred,
    /// Whichever answers soonest.
    Nearest,
}

/// How a server is chosen.
#[derive(Clone, Copy, Debug, PartialEq, Eq)]
pub enum SelectionCriteria {
    /// By this read preference.
    ReadPreference(ReadPreference),
}

impl ReadPreference {
    /// The mode of this word, and nothing for another word.
    pub fn from_word(word: &str) -> Option<ReadPreference>
        ensures { result ≡ named preference_word preferences word.now }
    {
        match word {
            "primary" => Some(ReadPreference::Primary),
            "primaryPreferred" => Some(ReadPreference::PrimaryPreferred),
            "secondary" => Some(ReadPreference::Secondary),
            "secondaryPreferred" => Some(ReadPreference::SecondaryPreferred),
            "nearest" => Some(ReadPreference::Nearest),
            _ => None,
        }
    }

    /// Its word.
    pub fn as_word(&self) -> &'static str
        ensures { result.now ≡ text (preference_word self.now) }
    {
        match self {
            ReadPreference::Primary => "primary",
            ReadPreference::PrimaryPreferred => "primaryPreferred",
            ReadPreference::Secondary => "secondary",
            ReadPreference::SecondaryPreferred => "secondaryPreferred",
            ReadPreference::Nearest => "nearest",
        }
    }
}
