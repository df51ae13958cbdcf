//! The bodies of commands, made of parts.
ghost use Rattle.std.specs.Prelude.{◌≡◌, ◌++◌, [], ◌∷◌, List, None, OnOk, IfOk, IfErr, option_copied};
ghost use Rattle.mg_bson.specs.Find.{joined};
ghost use Rattle.mg_options.specs.Fields.{FailsBy, Line, fields_in, first_unfit, line, lines};
ghost use Rattle.mg_ops.specs.Entries.{entry};
ghost use Rattle.mg_ops.specs.Pieces.{one_of};
ghost use Rattle.mg_ops.specs.Sessions.{end_of};

use crate::entry::Entry;
use mg_bson::{Array, Bson, Document};
use mg_link::{ClientSession, Error};
use mg_options::put_given;
use std::alloc::Global;

/// Some fields of a command, one behind another.
pub(crate) trait Part {
    /// The fields.
    ghost shows: { Self → List Line };

    /// Puts those that are given at the end. It fails where memory runs out, or an argument is outside its range.
    fn append_to(&self, alloc: Global, body: &mut Document) -> Result<(), Error>
        ensures ok { OnOk result (body.new ≡ joined body.old (fields_in (shows self.now))) }
        ensures fits { OnOk result (first_unfit (shows self.now) ≡ None) }
        ensures err { IfErr result (λ e. FailsBy (first_unfit (shows self.now)) e) };
}

/// A list of fields.
#[derive(Clone, Copy)]
pub(crate) struct Listed<'l, 'a> {
    pub(crate) list: &'l [(&'a str, Entry<'a>)],
}

impl Part for Listed<'_, '_> {
    ghost use Rattle.mg_options.specs.Fields.{lines};
    ghost use Rattle.mg_ops.specs.Entries.{entry};

    ghost shows = { λ p. lines entry p.list.now };

    fn append_to(&self, alloc: Global, body: &mut Document) -> Result<(), Error> {
        put_given(alloc, body, self.list)
    }
}

/// An array of one document with these fields.
#[derive(Clone, Copy)]
pub(crate) struct One<'l, 'a> {
    pub(crate) name: &'a str,
    pub(crate) list: &'l [(&'a str, Entry<'a>)],
}

impl Part for One<'_, '_> {
    ghost use Rattle.std.specs.Prelude.{[], ◌∷◌};
    ghost use Rattle.mg_options.specs.Fields.{line, lines};
    ghost use Rattle.mg_ops.specs.Entries.{entry};
    ghost use Rattle.mg_ops.specs.Pieces.{one_of};

    ghost shows = { λ p. line p.name.now (one_of (lines entry p.list.now)) ∷ [] };

    #[tactic(auto, using(crate::proofs::Composing::one_put, crate::proofs::Composing::one_is_fit, crate::proofs::Composing::one_fails))]
    fn append_to(&self, alloc: Global, body: &mut Document) -> Result<(), Error> {
        let mut fields = Document::new(alloc);
        put_given(alloc, &mut fields, self.list)?;
        let mut array = Array::new(alloc);
        array.push(Bson::Document(fields))?;
        Ok(body.append(self.name, Bson::Array(array))?)
    }
}

/// One part, and another behind it.
#[derive(Drop)]
pub(crate) struct Then<'a, A, B> {
    pub(crate) first: &'a A,
    pub(crate) rest: &'a B,
}

impl<A: Part, B: Part> Part for Then<'_, A, B> {
    ghost use Rattle.std.specs.Prelude.{◌++◌};

    ghost shows = { λ p. A.shows p.first.now ++ B.shows p.rest.now };

    #[tactic(auto, using(crate::proofs::Composing::both_put, crate::proofs::Composing::unfit_in_rest, crate::proofs::Composing::fails_first))]
    fn append_to(&self, alloc: Global, body: &mut Document) -> Result<(), Error> {
        match self.first.append_to(alloc, body) {
            Ok(()) => self.rest.append_to(alloc, body),
            Err(error) => Err(error),
        }
    }
}

/// The fields of a session, where a command has one.
#[derive(Clone, Copy)]
pub(crate) struct SessionFields<'a> {
    pub(crate) session: Option<&'a ClientSession>,
}

impl Part for SessionFields<'_> {
    ghost use Rattle.std.specs.Prelude.{option_copied};
    ghost use Rattle.mg_ops.specs.Sessions.{session_lines};

    ghost shows = { λ p. session_lines (option_copied p.session) };

    fn append_to(&self, alloc: Global, body: &mut Document) -> Result<(), Error> {
        match self.session {
            Some(session) => put_given(
                alloc,
                body,
                &[
                    ("lsid", Entry::SessionId(session)),
                    ("txnNumber", Entry::TransactionNumber(session)),
                    ("startTransaction", Entry::StartTransaction(session)),
                    ("autocommit", Entry::Autocommit(session)),
                ],
            ),
            None => Ok(()),
        }
    }
}

/// The field by which a write says that its first failure ends it.
#[derive(Clone, Copy)]
pub(crate) struct InOrder;

impl Part for InOrder {
    ghost use Rattle.std.specs.Prelude.{true};
    ghost use Rattle.mg_options.specs.Fields.{◌⟼◌⨾◌, nothing};
    ghost use Rattle.mg_ops.specs.Bodies.{always};

    ghost shows = { λ _. "ordered" ⟼ always true ⨾ nothing };

    fn append_to(&self, alloc: Global, body: &mut Document) -> Result<(), Error> {
        put_given(alloc, body, &[("ordered", Entry::Ordered(None))])
    }
}

/// Puts behind a document: a part, the database, the fields of a session, and how the command is done. Whether the arguments
/// of these fit does not hang on the session.
pub(crate) fn append_all<'c, P: Part>(
    alloc: Global,
    body: &mut Document,
    front: &P,
    db: Entry<'_>,
    session: Option<&ClientSession>,
    concerns: &[(&'c str, Entry<'c>)],
) -> Result<(), Error>
    ensures ok { OnOk result (body.new ≡ joined body.old (fields_in (P.shows front.now ++ end_of (entry db.entry) (option_copied session.entry) (lines entry concerns.now)))) }
    ensures fits { OnOk result (first_unfit (P.shows front.now ++ end_of (entry db.entry) None (lines entry concerns.now)) ≡ None) }
    ensures err { IfErr result (λ e. FailsBy (first_unfit (P.shows front.now ++ end_of (entry db.entry) None (lines entry concerns.now))) e) }
{
    let database = Listed {
        list: &[("$db", db)],
    };
    let fields = SessionFields { session };
    let concerns = Listed { list: concerns };
    let rest = Then {
        first: &fields,
        rest: &concerns,
    };
    let end = Then {
        first: &database,
        rest: &rest,
    };
    let whole = Then {
        first: front,
        rest: &end,
    };
    whole.append_to(alloc, body)
}

/// The command that is made of a part, with its database, its session, and how it is done behind it.
pub(crate) fn body<'c, P: Part>(
    alloc: Global,
    front: &P,
    db: Entry<'_>,
    session: Option<&ClientSession>,
    concerns: &[(&'c str, Entry<'c>)],
) -> Result<Document, Error>
    ensures ok { IfOk result (λ d. d ≡ fields_in (P.shows front.now ++ end_of (entry db.entry) (option_copied session.entry) (lines entry concerns.now))) }
    ensures fits { OnOk result (first_unfit (P.shows front.now ++ end_of (entry db.entry) None (lines entry concerns.now)) ≡ None) }
    ensures err { IfErr result (λ e. FailsBy (first_unfit (P.shows front.now ++ end_of (entry db.entry) None (lines entry concerns.now))) e) }
{
    let mut body = Document::new(alloc);
    append_all(alloc, &mut body, front, db, session, concerns)?;
    Ok(body)
}
