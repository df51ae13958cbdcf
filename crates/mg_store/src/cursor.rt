//! The open cursors.
use mg_bson::RawDocumentBuf;
use mg_link::{Namespace, OperationTarget};
use mg_query::Condition;

/// What a cursor is to see: the changes of its target whose events meet each condition.
pub(crate) struct Watch {
    pub(crate) target: OperationTarget,
    pub(crate) filter: Vec<Condition>,
}

// By hand, so that letting one go is one call.
impl Drop for Watch {
    fn drop(self) {
        let Watch {
            target: _,
            filter: _,
        } = self;
    }
}

/// What a query found, and the namespace that its cursor has.
pub(crate) struct Found {
    pub(crate) ns: Namespace,
    pub(crate) documents: Vec<RawDocumentBuf>,
}

// By hand, so that letting one go is one call.
impl Drop for Found {
    fn drop(self) {
        let Found {
            ns: _,
            documents: _,
        } = self;
    }
}

/// What a cursor goes on with.
pub(crate) enum Source {
    Watch(Watch),
    Found(Found),
}

// By hand, so that letting one go is one call.
impl Drop for Source {
    fn drop(self) {
        match self {
            Source::Watch(_) => {}
            Source::Found(_) => {}
        }
    }
}

/// A cursor that is open, and the place behind what it has given: in the list of changes, or among what was found.
pub(crate) struct Cursor {
    pub(crate) source: Source,
    pub(crate) place: u64,
}

// By hand, so that letting one go is one call.
impl Drop for Cursor {
    fn drop(self) {
        let Cursor {
            source: _,
            place: _,
        } = self;
    }
}
