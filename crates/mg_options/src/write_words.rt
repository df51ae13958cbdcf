//! Words and values of the options of writes and cursors.
ghost use Rattle.std.specs.Prelude.{◌≡◌, ◌⊎◌, Some, None, IfOk, IfErr, IsTrue, ◌↔◌};
ghost use Rattle.std.specs.Cmp.{decided, on_equiv, on_per, partial_equiv_from_equiv};
ghost use Rattle.std.specs.Str.{str_to_ascii_lowercase};
ghost use Rattle.mg_bson.specs.Same.{tree_eq, tree_eq-decides};
ghost use Rattle.mg_bson.specs.Tree.{array, document};
ghost use Rattle.mg_bson.specs.View.{tree};
ghost use Rattle.mg_link.specs.Errors.{plain};
ghost use Rattle.mg_link.specs.Words.{named};
ghost use Rattle.mg_link.specs.declared.error.BadArgument.TheVariants as arguments;
ghost use Rattle.mg_link.specs.declared.error.ErrorKind.TheVariants as kinds;
ghost use Rattle.mg_options.specs.Printing.{listed};
ghost use Rattle.mg_options.specs.Reading.{IsBadWord};
ghost use Rattle.mg_options.specs.Tables.{counted, hint_value, modifications_value, quorum_members, quorum_of, return_document_word, return_documents};

use mg_bson::{Bson, Document};
use mg_link::{BadArgument, Error, ErrorKind, plain};
use std::alloc::{AllocError, Global};

/// Which form of a changed document is given back.
#[derive(Clone, Copy, PartialEq, Eq)]
pub enum ReturnDocument {
    /// As it is behind the change.
    After,
    /// As it was before the change.
    Before,
}

/// Whether a cursor stays open at its end, and waits there (find specification, `tailable` and `awaitData`).
#[derive(Clone, Copy, PartialEq, Eq)]
pub enum CursorType {
    /// It is closed at its end.
    NonTailable,
    /// It stays open.
    Tailable,
    /// It stays open, and the server waits there for new documents.
    TailableAwait,
}

/// Which index is to be used.
pub enum Hint {
    /// That of these keys.
    Keys(Document),
    /// That of this name.
    Name(String),
}

/// How many of the servers are to be ready before an index build ends (manual of the server, `commitQuorum`).
#[derive(PartialEq, Eq, Drop)]
pub enum CommitQuorum {
    /// So many. A command holds at most 2,147,483,647.
    Nodes(u32),
    /// All that have a vote.
    VotingMembers,
    /// Most of those that have a vote.
    Majority,
    /// Those that a setting of this name tells.
    Custom(String),
}

/// How documents are changed.
pub enum UpdateModifications {
    /// By the operators of this document.
    Document(Document),
    /// By the stages of this pipeline.
    Pipeline(Vec<Document>),
}

// By hand, so that letting one go is one call.
impl Drop for Hint {
    fn drop(self) {
        match self {
            Hint::Keys(_) => {}
            Hint::Name(_) => {}
        }
    }
}

// By hand, so that letting one go is one call.
impl Drop for UpdateModifications {
    fn drop(self) {
        match self {
            UpdateModifications::Document(_) => {}
            UpdateModifications::Pipeline(_) => {}
        }
    }
}

impl ReturnDocument {
    /// The value of this word, in whatever case it is written. Another word is an argument outside its range.
    pub fn from_word(alloc: Global, word: &str) -> Result<ReturnDocument, Error>
        ensures ok { IfOk result (λ v. named return_document_word return_documents (str_to_ascii_lowercase word.now) ≡ Some v) }
        ensures err { IfErr result (λ e. (e ≡ plain kinds.OutOfMemory) ⊎ IsBadWord "Unknown return document value: " word.now e) }
        ensures unknown { IfErr result (λ e. (e ≡ plain kinds.OutOfMemory) ⊎ (named return_document_word return_documents (str_to_ascii_lowercase word.now) ≡ None)) }
    {
        if word.eq_ignore_ascii_case("after") {
            Ok(ReturnDocument::After)
        } else if word.eq_ignore_ascii_case("before") {
            Ok(ReturnDocument::Before)
        } else {
            let word = String::from_str(alloc, word)?;
            Err(plain(ErrorKind::InvalidArgument(BadArgument::ReturnDocument(word))))
        }
    }

    /// Whether it is the form behind the change, as commands say it.
    pub fn as_bool(&self) -> bool
        ensures { IsTrue result ↔ (self.now ≡ ReturnDocument.After) }
    {
        matches!(self, ReturnDocument::After)
    }
}

impl CommitQuorum {
    /// The quorum that a value of a command says: a number from 0 to 4,294,967,295, or a text. Another value is an
    /// argument outside its range.
    pub fn from_value(value: &Bson) -> Result<CommitQuorum, Error>
        ensures ok { IfOk result (λ q. quorum_of (tree value.now) ≡ Some (quorum_members q)) }
        ensures err { IfErr result (λ e. (e ≡ plain kinds.OutOfMemory) ⊎ (e ≡ plain (kinds.InvalidArgument arguments.Number))) }
        ensures unknown { IfErr result (λ e. (e ≡ plain kinds.OutOfMemory) ⊎ (quorum_of (tree value.now) ≡ None)) }
    {
        match value {
            Bson::Int32(n) => nodes(i64::from(*n)),
            Bson::Int64(n) => nodes(*n),
            Bson::String(word) => Ok(match word.as_str() {
                "votingMembers" => CommitQuorum::VotingMembers,
                "majority" => CommitQuorum::Majority,
                _ => CommitQuorum::Custom(word.clone()?),
            }),
            _ => Err(plain(ErrorKind::InvalidArgument(BadArgument::Number))),
        }
    }
}

// So many servers.
fn nodes(n: i64) -> Result<CommitQuorum, Error>
    ensures ok { IfOk result (λ q. counted n ≡ Some (quorum_members q)) }
    ensures err { IfErr result (λ e. (e ≡ plain (kinds.InvalidArgument arguments.Number)) × (counted n ≡ None)) }
{
    match u32::try_from(n) {
        Ok(n) => Ok(CommitQuorum::Nodes(n)),
        Err(_) => Err(plain(ErrorKind::InvalidArgument(BadArgument::Number))),
    }
}

impl Clone for Hint {
    ghost is_clone = { λ a b. hint_value b ≡ hint_value a };

    fn clone(&self) -> Result<Hint, AllocError> {
        Ok(match self {
            Hint::Keys(keys) => Hint::Keys(keys.clone()?),
            Hint::Name(name) => Hint::Name(name.clone()?),
        })
    }
}

fn is_same(hint: &Hint, other: &Hint) -> bool
    ensures { IsTrue result ↔ (hint_value hint.now ≡ hint_value other.now) }
{
    match (hint, other) {
        (Hint::Keys(keys), Hint::Keys(other)) => keys == other,
        (Hint::Name(name), Hint::Name(other)) => name == other,
        _ => false,
    }
}

impl PartialEq for Hint {
    ghost eq = { λ a b. tree_eq (hint_value a) (hint_value b) };

    ghost laws = { on_per hint_value (partial_equiv_from_equiv (decided tree_eq tree_eq-decides)) };

    fn eq(&self, other: &Hint) -> bool
        ensures value { result ≡ tree_eq (hint_value self.now) (hint_value other.now) }
        ensures same { IsTrue result ↔ (hint_value self.now ≡ hint_value other.now) }
    {
        is_same(self, other)
    }
}

impl Eq for Hint {
    ghost laws = { on_equiv hint_value (decided tree_eq tree_eq-decides) };
}

impl Clone for CommitQuorum {
    ghost is_clone = { λ a b. quorum_members b ≡ quorum_members a };

    fn clone(&self) -> Result<CommitQuorum, AllocError> {
        Ok(match self {
            CommitQuorum::Nodes(n) => CommitQuorum::Nodes(*n),
            CommitQuorum::VotingMembers => CommitQuorum::VotingMembers,
            CommitQuorum::Majority => CommitQuorum::Majority,
            CommitQuorum::Custom(word) => CommitQuorum::Custom(word.clone()?),
        })
    }
}

impl Clone for UpdateModifications {
    ghost is_clone = { λ a b. modifications_value b ≡ modifications_value a };

    #[tactic(auto, using(crate::proofs::Copying::all_same))]
    fn clone(&self) -> Result<UpdateModifications, AllocError> {
        Ok(match self {
            UpdateModifications::Document(document) => {
                UpdateModifications::Document(document.clone()?)
            }
            UpdateModifications::Pipeline(stages) => {
                UpdateModifications::Pipeline(stages.clone()?)
            }
        })
    }
}

impl From<Document> for UpdateModifications {
    ghost from_gives = { λ d m. modifications_value m ≡ document d };

    fn from(document: Document) -> UpdateModifications {
        UpdateModifications::Document(document)
    }
}

impl From<Vec<Document>> for UpdateModifications {
    ghost from_gives = { λ ds m. modifications_value m ≡ array (listed document ds.items) };

    fn from(stages: Vec<Document>) -> UpdateModifications {
        UpdateModifications::Pipeline(stages)
    }
}
