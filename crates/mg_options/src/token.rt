//! Resume tokens.
ghost use Rattle.std.specs.Prelude.{◌≡◌, ◌↔◌, IfOk, IfErr, IsTrue};
ghost use Rattle.std.specs.Cmp.{decided, partial_equiv_from_equiv};
ghost use Rattle.mg_bson.specs.Same.{tree_eq, tree_eq-decides};
ghost use Rattle.mg_bson.specs.View.{tree};
ghost use Rattle.mg_bson.specs.RawView.{value as raw_value};
ghost use Rattle.mg_link.specs.Errors.{plain};
ghost use Rattle.mg_link.specs.declared.error.ErrorKind.TheVariants as kinds;
ghost use Rattle.mg_options.specs.Tokens.{first_token};

use crate::change_stream::ChangeStreamOptions;
use mg_bson::{Bson, RawValue};
use mg_link::Error;
use std::alloc::{AllocError, Global};
use std::marker::Model;

/// A token that names a place in the list of changes. It may be stored, and handed to a later watch.
///
/// Change streams specification: "resume token". Its value means nothing to anybody but the server.
pub struct ResumeToken {
    value: Bson,
}

// By hand, so that letting one go is one call.
impl Drop for ResumeToken {
    fn drop(self) {
        let ResumeToken { value: _ } = self;
    }
}

impl Model for ResumeToken {
    ghost use Rattle.mg_bson.specs.Tree.{Tree};
    ghost use Rattle.mg_bson.specs.Coded.{coded_tree};

    ghost Value = { Tree };

    ghost coded = { coded_tree };

    ghost use Rattle.mg_bson.specs.View.{tree};

    ghost view = { λ t. tree t.value };
}

// Where a lent token lies.
#[derive(Drop)]
enum Lent<'a> {
    Value(&'a Bson),
    // In a received document, whose copies take their memory from here.
    Raw(Global, RawValue<'a>),
}

/// A token that is lent.
#[derive(Drop)]
pub struct TokenRef<'a> {
    lent: Lent<'a>,
}

impl<'a> Model for TokenRef<'a> {
    ghost use Rattle.mg_bson.specs.Tree.{Tree};
    ghost use Rattle.mg_bson.specs.Coded.{coded_tree};

    ghost Value = { Tree };

    ghost coded = { coded_tree };

    ghost use Rattle.mg_options.specs.Tokens.{lent_tree};

    ghost view = { λ t. lent_tree t.lent };
}

impl ResumeToken {
    /// The token that has this value. Only memory can fail.
    pub fn from_value(value: &Bson) -> Result<ResumeToken, Error>
        ensures ok { IfOk result (λ t. t ≡ tree value.now) }
        ensures err { IfErr result (λ e. e ≡ plain kinds.OutOfMemory) }
    {
        let value = value.clone()?;
        Ok(ResumeToken { value })
    }

    /// The token that has this value of a received document. Only memory can fail.
    pub fn from_raw(alloc: Global, value: &RawValue<'_>) -> Result<ResumeToken, Error>
        ensures ok { IfOk result (λ t. t ≡ raw_value value.now) }
        ensures err { IfErr result (λ e. e ≡ plain kinds.OutOfMemory) }
    {
        let value = value.to_value(alloc)?;
        Ok(ResumeToken { value })
    }

    /// The value of the token. Only memory can fail.
    pub fn to_value(&self) -> Result<Bson, Error>
        ensures ok { IfOk result (λ v. tree v ≡ self.now) }
        ensures err { IfErr result (λ e. e ≡ plain kinds.OutOfMemory) }
    {
        let value = self.value.clone()?;
        Ok(value)
    }

    /// Lends the token.
    pub fn as_ref(&self) -> TokenRef<'_>
        ensures { result ≡ self.now }
    {
        TokenRef {
            lent: Lent::Value(&self.value),
        }
    }

    /// The token of a new stream: that of its first batch where this is empty and has one, else the one that the
    /// stream starts after, else the one that it resumes after, else none. Only memory can fail.
    pub fn initial(
        options: &ChangeStreamOptions,
        first_is_empty: bool,
        batch_token: Option<TokenRef<'_>>,
    ) -> Result<Option<ResumeToken>, Error>
        ensures ok { IfOk result (λ t. t ≡ first_token options.now.start_after options.now.resume_after first_is_empty batch_token.entry) }
        ensures err { IfErr result (λ e. e ≡ plain kinds.OutOfMemory) }
    {
        if first_is_empty {
            if let Some(token) = batch_token {
                return Ok(Some(token.to_owned()?));
            }
        }
        match (&options.start_after, &options.resume_after) {
            (Some(token), _) => Ok(Some(token.clone()?)),
            (None, Some(token)) => Ok(Some(token.clone()?)),
            (None, None) => Ok(None),
        }
    }
}

impl<'a> TokenRef<'a> {
    /// The token that has this value of a received document. It takes no memory.
    pub fn from_raw(alloc: Global, value: RawValue<'a>) -> TokenRef<'a>
        ensures { result ≡ raw_value value.entry }
    {
        TokenRef {
            lent: Lent::Raw(alloc, value),
        }
    }

    /// A copy that owns its value. Only memory can fail.
    pub fn to_owned(&self) -> Result<ResumeToken, Error>
        ensures ok { IfOk result (λ t. t ≡ self.now) }
        ensures err { IfErr result (λ e. e ≡ plain kinds.OutOfMemory) }
    {
        match &self.lent {
            Lent::Value(value) => ResumeToken::from_value(value),
            Lent::Raw(alloc, value) => ResumeToken::from_raw(*alloc, value),
        }
    }
}

impl Clone for ResumeToken {
    ghost is_clone = { λ t u. u ≡ t };

    fn clone(&self) -> Result<ResumeToken, AllocError> {
        let value = self.value.clone()?;
        Ok(ResumeToken { value })
    }
}

impl PartialEq for ResumeToken {
    ghost eq = { tree_eq };

    ghost laws = { partial_equiv_from_equiv (decided tree_eq tree_eq-decides) };

    fn eq(&self, other: &ResumeToken) -> bool
        ensures value { result ≡ tree_eq self.now other.now }
        ensures same { IsTrue result ↔ (self.now ≡ other.now) }
    {
        self.value == other.value
    }
}

impl Eq for ResumeToken {
    ghost laws = { decided tree_eq tree_eq-decides };
}
