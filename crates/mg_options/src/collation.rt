//! How texts are compared.
ghost use Rattle.std.specs.Prelude.{◌≡◌, ◌⊎◌, ◌<◌, Some, None, IfOk, IfErr, OnOk, OnErr, decimal};
ghost use Rattle.mg_bson.specs.Find.{joined};
ghost use Rattle.mg_link.specs.Errors.{plain};
ghost use Rattle.mg_link.specs.Words.{named, text};
ghost use Rattle.mg_link.specs.declared.error.BadArgument.TheVariants as arguments;
ghost use Rattle.mg_link.specs.declared.error.ErrorKind.TheVariants as kinds;
ghost use Rattle.mg_options.specs.Collations.{alternate_word, alternates, case_first_word, case_firsts, collation_lines, max_variable_word, max_variables, strength_level};
ghost use Rattle.mg_options.specs.Fields.{fields_in, first_unfit};
ghost use Rattle.mg_options.specs.Reading.{IsBadWord};

use crate::field::append_given;
use crate::printing::Part;
use mg_bson::Document;
use mg_link::{BadArgument, Error, ErrorKind, plain};
use std::alloc::{AllocError, Global};
use std::fmt;

/// How much of two texts is compared (ICU comparison levels).
#[derive(Clone, Copy, PartialEq, Eq)]
pub enum CollationStrength {
    /// Base characters alone, level 1.
    Primary,
    /// Accents too, level 2.
    Secondary,
    /// Case too, level 3.
    Tertiary,
    /// Punctuation too, level 4.
    Quaternary,
    /// Code points where all else is equal, level 5.
    Identical,
}

/// Which case comes first where texts differ by case alone.
#[derive(Clone, Copy, PartialEq, Eq)]
pub enum CollationCaseFirst {
    /// Upper case.
    Upper,
    /// Lower case.
    Lower,
    /// As the locale has it.
    Off,
}

/// Whether spaces and punctuation count as base characters.
#[derive(Clone, Copy, PartialEq, Eq)]
pub enum CollationAlternate {
    /// They do.
    NonIgnorable,
    /// They do not, and tell texts apart at a strength above 3 alone.
    Shifted,
}

/// Which characters do not count where the alternate is shifted.
#[derive(Clone, Copy, PartialEq, Eq)]
pub enum CollationMaxVariable {
    /// Spaces and punctuation.
    Punct,
    /// Spaces.
    Space,
}

/// How texts are compared: the rules of a language, and what is changed of them.
pub struct Collation {
    /// The locale of ICU.
    pub locale: String,
    /// How much of two texts is compared.
    pub strength: Option<CollationStrength>,
    /// Whether case has a level of its own.
    pub case_level: Option<bool>,
    /// Which case comes first.
    pub case_first: Option<CollationCaseFirst>,
    /// Whether digits are compared as numbers.
    pub numeric_ordering: Option<bool>,
    /// Whether spaces and punctuation count as base characters.
    pub alternate: Option<CollationAlternate>,
    /// Which characters do not count where the alternate is shifted.
    pub max_variable: Option<CollationMaxVariable>,
    /// Whether texts are normalized first.
    pub normalization: Option<bool>,
    /// Whether accents are compared from the end of a text.
    pub backwards: Option<bool>,
}

// By hand, so that letting one go is one call.
impl Drop for Collation {
    fn drop(self) {
        let Collation {
            locale: _,
            strength: _,
            case_level: _,
            case_first: _,
            numeric_ordering: _,
            alternate: _,
            max_variable: _,
            normalization: _,
            backwards: _,
        } = self;
    }
}

impl Collation {
    /// The rules of this locale, of which nothing is changed.
    pub fn builder(locale: String) -> Collation
        ensures { result ≡ record {
          locale = locale;
          strength = None;
          case_level = None;
          case_first = None;
          numeric_ordering = None;
          alternate = None;
          max_variable = None;
          normalization = None;
          backwards = None;
        } }
    {
        Collation {
            locale,
            strength: None,
            case_level: None,
            case_first: None,
            numeric_ordering: None,
            alternate: None,
            max_variable: None,
            normalization: None,
            backwards: None,
        }
    }

    /// Gives `locale`.
    pub fn locale(mut self, value: String) -> Collation
        ensures { result ≡ record self { locale = value } }
    {
        self.locale = value;
        self
    }

    /// Gives `strength`.
    pub fn strength(mut self, value: CollationStrength) -> Collation
        ensures { result ≡ record self { strength = Some value } }
    {
        self.strength = Some(value);
        self
    }

    /// Gives `case_level`.
    pub fn case_level(mut self, value: bool) -> Collation
        ensures { result ≡ record self { case_level = Some value } }
    {
        self.case_level = Some(value);
        self
    }

    /// Gives `case_first`.
    pub fn case_first(mut self, value: CollationCaseFirst) -> Collation
        ensures { result ≡ record self { case_first = Some value } }
    {
        self.case_first = Some(value);
        self
    }

    /// Gives `numeric_ordering`.
    pub fn numeric_ordering(mut self, value: bool) -> Collation
        ensures { result ≡ record self { numeric_ordering = Some value } }
    {
        self.numeric_ordering = Some(value);
        self
    }

    /// Gives `alternate`.
    pub fn alternate(mut self, value: CollationAlternate) -> Collation
        ensures { result ≡ record self { alternate = Some value } }
    {
        self.alternate = Some(value);
        self
    }

    /// Gives `max_variable`.
    pub fn max_variable(mut self, value: CollationMaxVariable) -> Collation
        ensures { result ≡ record self { max_variable = Some value } }
    {
        self.max_variable = Some(value);
        self
    }

    /// Gives `normalization`.
    pub fn normalization(mut self, value: bool) -> Collation
        ensures { result ≡ record self { normalization = Some value } }
    {
        self.normalization = Some(value);
        self
    }

    /// Gives `backwards`.
    pub fn backwards(mut self, value: bool) -> Collation
        ensures { result ≡ record self { backwards = Some value } }
    {
        self.backwards = Some(value);
        self
    }

    /// The record as it was given.
    pub fn build(self) -> Collation
        ensures { result ≡ self }
    {
        self
    }

    /// Puts its rules at the end of a document, those that are given, in their order. Only memory can fail, and then the
    /// document is as it was.
    pub fn append_fields(&self, alloc: Global, body: &mut Document) -> Result<(), Error>
        ensures ok { OnOk result (body.new ≡ joined body.old (fields_in (collation_lines self.now))) }
        ensures fits { OnOk result (first_unfit (collation_lines self.now) ≡ None) }
        ensures same { OnErr result (body.new ≡ body.old) }
        ensures err { IfErr result (λ e. e ≡ plain kinds.OutOfMemory) }
    {
        append_given(
            alloc,
            body,
            &[
                ("locale", Part::Text(&self.locale)),
                ("strength", Part::Strength(self.strength)),
                ("caseLevel", Part::Flag(self.case_level)),
                ("caseFirst", Part::CaseFirst(self.case_first)),
                ("numericOrdering", Part::Flag(self.numeric_ordering)),
                ("alternate", Part::Alternate(self.alternate)),
                ("maxVariable", Part::MaxVariable(self.max_variable)),
                ("normalization", Part::Flag(self.normalization)),
                ("backwards", Part::Flag(self.backwards)),
            ],
        )
    }
}

impl CollationStrength {
    /// The strength of this level. Another level than 1 to 5 is an argument outside its range.
    pub fn try_from(level: u32) -> Result<CollationStrength, Error>
        ensures ok { IfOk result (λ s. strength_level s ≡ level) }
        ensures err { IfErr result (λ e. e ≡ plain (kinds.InvalidArgument (arguments.CollationStrength level))) }
        ensures range { OnErr result ((level < 1) ⊎ (5 < level)) }
    {
        match level {
            1 => Ok(CollationStrength::Primary),
            2 => Ok(CollationStrength::Secondary),
            3 => Ok(CollationStrength::Tertiary),
            4 => Ok(CollationStrength::Quaternary),
            5 => Ok(CollationStrength::Identical),
            _ => Err(plain(ErrorKind::InvalidArgument(BadArgument::CollationStrength(level)))),
        }
    }
}

impl From<CollationStrength> for u32 {
    ghost from_gives = { λ s n. n ≡ strength_level s };

    fn from(strength: CollationStrength) -> u32 {
        match strength {
            CollationStrength::Primary => 1,
            CollationStrength::Secondary => 2,
            CollationStrength::Tertiary => 3,
            CollationStrength::Quaternary => 4,
            CollationStrength::Identical => 5,
        }
    }
}

impl fmt::Display for CollationStrength {
    ghost output = { λ s. Some (decimal (strength_level s)) };

    fn fmt<W: fmt::Write>(&self, f: &mut fmt::Formatter<W>) -> fmt::Result {
        let level = u32::from(*self);
        write!(f, "{level}")
    }
}

impl CollationCaseFirst {
    /// The value of this word. Another word is an argument outside its range.
    pub fn from_str(alloc: Global, word: &str) -> Result<CollationCaseFirst, Error>
        ensures ok { IfOk result (λ v. named case_first_word case_firsts word.now ≡ Some v) }
        ensures err { IfErr result (λ e. (e ≡ plain kinds.OutOfMemory) ⊎ IsBadWord "invalid CollationCaseFirst: " word.now e) }
        ensures unknown { IfErr result (λ e. (e ≡ plain kinds.OutOfMemory) ⊎ (named case_first_word case_firsts word.now ≡ None)) }
    {
        match word {
            "upper" => Ok(CollationCaseFirst::Upper),
            "lower" => Ok(CollationCaseFirst::Lower),
            "off" => Ok(CollationCaseFirst::Off),
            _ => {
                let word = String::from_str(alloc, word)?;
                Err(plain(ErrorKind::InvalidArgument(BadArgument::CollationCaseFirst(word))))
            }
        }
    }

    /// Its word.
    pub fn as_str(&self) -> &'static str
        ensures { result.now ≡ text (case_first_word self.now) }
    {
        match self {
            CollationCaseFirst::Upper => "upper",
            CollationCaseFirst::Lower => "lower",
            CollationCaseFirst::Off => "off",
        }
    }
}

impl fmt::Display for CollationCaseFirst {
    ghost output = { λ v. Some (text (case_first_word v)) };

    fn fmt<W: fmt::Write>(&self, f: &mut fmt::Formatter<W>) -> fmt::Result {
        f.write_str(self.as_str())
    }
}

impl CollationAlternate {
    /// The value of this word. Another word is an argument outside its range.
    pub fn from_str(alloc: Global, word: &str) -> Result<CollationAlternate, Error>
        ensures ok { IfOk result (λ v. named alternate_word alternates word.now ≡ Some v) }
        ensures err { IfErr result (λ e. (e ≡ plain kinds.OutOfMemory) ⊎ IsBadWord "invalid collation alternate: " word.now e) }
        ensures unknown { IfErr result (λ e. (e ≡ plain kinds.OutOfMemory) ⊎ (named alternate_word alternates word.now ≡ None)) }
    {
        match word {
            "non-ignorable" => Ok(CollationAlternate::NonIgnorable),
            "shifted" => Ok(CollationAlternate::Shifted),
            _ => {
                let word = String::from_str(alloc, word)?;
                Err(plain(ErrorKind::InvalidArgument(BadArgument::CollationAlternate(word))))
            }
        }
    }

    /// Its word.
    pub fn as_str(&self) -> &'static str
        ensures { result.now ≡ text (alternate_word self.now) }
    {
        match self {
            CollationAlternate::NonIgnorable => "non-ignorable",
            CollationAlternate::Shifted => "shifted",
        }
    }
}

impl fmt::Display for CollationAlternate {
    ghost output = { λ v. Some (text (alternate_word v)) };

    fn fmt<W: fmt::Write>(&self, f: &mut fmt::Formatter<W>) -> fmt::Result {
        f.write_str(self.as_str())
    }
}

impl CollationMaxVariable {
    /// The value of this word. Another word is an argument outside its range.
    pub fn from_str(alloc: Global, word: &str) -> Result<CollationMaxVariable, Error>
        ensures ok { IfOk result (λ v. named max_variable_word max_variables word.now ≡ Some v) }
        ensures err { IfErr result (λ e. (e ≡ plain kinds.OutOfMemory) ⊎ IsBadWord "invalid collation max variable: " word.now e) }
        ensures unknown { IfErr result (λ e. (e ≡ plain kinds.OutOfMemory) ⊎ (named max_variable_word max_variables word.now ≡ None)) }
    {
        match word {
            "punct" => Ok(CollationMaxVariable::Punct),
            "space" => Ok(CollationMaxVariable::Space),
            _ => {
                let word = String::from_str(alloc, word)?;
                Err(plain(ErrorKind::InvalidArgument(BadArgument::CollationMaxVariable(word))))
            }
        }
    }

    /// Its word.
    pub fn as_str(&self) -> &'static str
        ensures { result.now ≡ text (max_variable_word self.now) }
    {
        match self {
            CollationMaxVariable::Punct => "punct",
            CollationMaxVariable::Space => "space",
        }
    }
}

impl fmt::Display for CollationMaxVariable {
    ghost output = { λ v. Some (text (max_variable_word v)) };

    fn fmt<W: fmt::Write>(&self, f: &mut fmt::Formatter<W>) -> fmt::Result {
        f.write_str(self.as_str())
    }
}

impl Clone for Collation {
    ghost is_clone = { λ a b. collation_lines b ≡ collation_lines a };

    fn clone(&self) -> Result<Collation, AllocError> {
        let locale = self.locale.clone()?;
        Ok(Collation {
            locale,
            strength: self.strength,
            case_level: self.case_level,
            case_first: self.case_first,
            numeric_ordering: self.numeric_ordering,
            alternate: self.alternate,
            max_variable: self.max_variable,
            normalization: self.normalization,
            backwards: self.backwards,
        })
    }
}
