use super::commands::{find, update, watch};
use super::{one_field, shown, written};
use crate::parted;
use mg_bson::Bson;
use mg_link::{
    ClientSession, ClientSessionHandle, ExplicitClientSessionHandle, ImplicitClientSessionHandle,
    PinnedConnection,
};
use mg_ops::Operation;
use std::alloc::Global;
use std::process::Abort;

// Operations in sessions, as the commands without one; the state of a session, an operation, and how often it is sent there;
// handles without a session, with their own and with another one's, and a connection that is lost.
pub(super) const ROWS: &str =
    r#"command find local starting~find filter $db lsid txnNumber startTransaction autocommit readConcern $readPreference {"$db":"db","$readPreference":{"mode":"nearest"},"autocommit":false,"filter":{"x":1},"find":"coll","lsid":{"id":7},"readConcern":{"level":"local"},"startTransaction":true,"txnNumber":{"$int64":"2"}}
command find raw aborted~find filter $db lsid readConcern $readPreference {"$db":"db","$readPreference":{"mode":"nearest"},"filter":{"x":1},"find":"coll","lsid":{"id":7},"readConcern":{"level":"local"}}
command aggregate journaled running~aggregate pipeline cursor $db lsid txnNumber autocommit writeConcern {"$db":"db","aggregate":"coll","autocommit":false,"cursor":{},"lsid":{"id":7},"pipeline":[{"$skip":1}],"txnNumber":{"$int64":"1"},"writeConcern":{"j":true}}
command aggregate watch starting~aggregate pipeline cursor $db lsid txnNumber startTransaction autocommit {"$db":"db","aggregate":"coll","autocommit":false,"cursor":{},"lsid":{"id":7},"pipeline":[{"$changeStream":{}}],"startTransaction":true,"txnNumber":{"$int64":"2"}}
command given plain-more running~getMore collection $db lsid txnNumber autocommit {"$db":"db","autocommit":false,"collection":"coll","getMore":{"$int64":"9"},"lsid":{"id":7},"txnNumber":{"$int64":"1"}}
command list all none~listCollections nameOnly $db lsid {"$db":"db","listCollections":1,"lsid":{"id":7},"nameOnly":true}
command list plain-indexes starting~listIndexes $db lsid txnNumber startTransaction autocommit {"$db":"db","autocommit":false,"listIndexes":"coll","lsid":{"id":7},"startTransaction":true,"txnNumber":{"$int64":"2"}}
command given command running~x $db lsid txnNumber autocommit $readPreference {"$db":"db","$readPreference":{"mode":"nearest"},"autocommit":false,"lsid":{"id":7},"txnNumber":{"$int64":"1"},"x":1}
command given plain committed~x $db lsid {"$db":"db","lsid":{"id":7},"x":1}
command given kill none~killCursors cursors $db lsid {"$db":"db","cursors":[{"$int64":"9"}],"killCursors":"coll","lsid":{"id":7}}
command write ordered starting~insert documents ordered $db lsid txnNumber startTransaction autocommit writeConcern {"$db":"db","autocommit":false,"documents":[{"x":1}],"insert":"coll","lsid":{"id":7},"ordered":true,"startTransaction":true,"txnNumber":{"$int64":"2"},"writeConcern":{"j":true}}
command write deleted running~delete deletes ordered $db lsid txnNumber autocommit writeConcern {"$db":"db","autocommit":false,"delete":"coll","deletes":[{"limit":1,"q":{"x":1}}],"lsid":{"id":7},"ordered":true,"txnNumber":{"$int64":"1"},"writeConcern":{"j":true}}
command write plain aborted~update updates ordered $db lsid {"$db":"db","lsid":{"id":7},"ordered":true,"update":"coll","updates":[{"q":{"x":1},"u":{"x":2}}]}
command space create starting~create $db lsid txnNumber startTransaction autocommit writeConcern {"$db":"db","autocommit":false,"create":"coll","lsid":{"id":7},"startTransaction":true,"txnNumber":{"$int64":"2"},"writeConcern":{"j":true}}
command space plain-indexes running~createIndexes indexes $db lsid txnNumber autocommit {"$db":"db","autocommit":false,"createIndexes":"coll","indexes":[{"key":{"x":1},"name":"x_1"}],"lsid":{"id":7},"txnNumber":{"$int64":"1"}}
command space dropped committed~drop $db lsid {"$db":"db","drop":"coll","lsid":{"id":7}}
retry none find~Read
retry none watch~Read
retry none update~None
retry starting find~None
retry starting watch~None
retry starting update~None
retry running find~None
retry running watch~None
retry running update~None
retry committed find~Read
retry committed watch~Read
retry committed update~None
retry aborted find~Read
retry aborted watch~Read
retry aborted update~None
handle none~true false
handle owned~true true
handle explicit~false true Starting 2
handle lost~Invalid(3) true false"#;

/// A session in the state of this name, where it is one. Where a transaction starts it is the second one, and otherwise the
/// first.
pub(super) fn session_of(rt: &impl Abort, alloc: Global, state: &str) -> Option<ClientSession> {
    let mut session = ClientSession::new(one_field(rt, alloc, "id", Bson::Int32(7)));
    match state {
        "none" => {}
        "starting" => {
            session.begin();
            session.end(true);
            session.begin();
        }
        "running" => {
            session.begin();
            session.command_started();
        }
        "committed" => {
            session.begin();
            session.end(true);
        }
        "aborted" => {
            session.begin();
            session.end(false);
        }
        _ => return None,
    }
    Some(session)
}

/// How often an operation is sent in the state of a session.
pub(super) fn retry(rt: &impl Abort, alloc: Global, line: &str) -> String {
    let (state, operation) = parted(line);
    let session = session_of(rt, alloc, state);
    let session = session.as_ref();
    let retry = match operation {
        "find" => find(rt, alloc, "").retry(session),
        "watch" => watch(rt, alloc).retry(session),
        _ => update(rt, alloc, "plain").retry(session),
    };
    shown(rt, alloc, &retry)
}

// Whether a handle is implicit, and whether it lends a session, which begins a transaction then.
fn lent_by<H: ClientSessionHandle>(rt: &impl Abort, alloc: Global, handle: &mut H) -> String {
    let is_implicit = handle.is_implicit();
    let is_lent = match handle.borrow_mut() {
        Some(session) => {
            session.begin();
            true
        }
        None => false,
    };
    written(rt, format!(in alloc; "{is_implicit} {is_lent}"))
}

// What a pinned connection is that is lost, and whether one that was not pinned is lost.
fn lost(rt: &impl Abort, alloc: Global) -> String {
    let lost = PinnedConnection::Valid(3).invalidated();
    let is_lost = PinnedConnection::Unpinned.invalidated().is_invalid();
    written(
        rt,
        format!(in alloc; "{lost:?} {} {is_lost}", lost.is_invalid()),
    )
}

/// What handles lend of a session, what becomes of a transaction then, and what a lost connection is.
pub(super) fn handle(rt: &impl Abort, alloc: Global, about: &str) -> String {
    match about {
        "none" => lent_by(rt, alloc, &mut ImplicitClientSessionHandle(None)),
        "owned" => lent_by(
            rt,
            alloc,
            &mut ImplicitClientSessionHandle(session_of(rt, alloc, "none")),
        ),
        "explicit" => {
            let mut session = ClientSession::new(one_field(rt, alloc, "id", Bson::Int32(7)));
            session.begin();
            session.end(true);
            let lent = lent_by(rt, alloc, &mut ExplicitClientSessionHandle(&mut session));
            let state = session.transaction_state();
            let number = session.transaction_number();
            written(rt, format!(in alloc; "{lent} {state:?} {number}"))
        }
        _ => lost(rt, alloc),
    }
}
