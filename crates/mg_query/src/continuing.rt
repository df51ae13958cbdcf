//! Which commands are about cursors, the cursor that one goes on with, and which refusals end it.
ghost use Rattle.std.specs.Prelude.{◌≡◌, codes, false, is_some};
ghost use Rattle.mg_bson.specs.Raw.{fields};
ghost use Rattle.mg_server.specs.Commands.{asked, space_at};
ghost use Rattle.mg_server.specs.Step.{ends_cursor};
ghost use Rattle.mg_query.specs.Continued.{continued, is_about_cursors, is_cursor_command};

use crate::reading::{has_dot, integer_of, text_at};
use mg_bson::RawDocument;

/// Whether a server that refuses a cursor with this code does not hold it any more.
pub fn ends_cursor(code: i32) -> bool
    ensures { result ≡ ends_cursor code }
{
    code == 43 || code == 237
}

/// Whether the command is a `getMore` or a `killCursors`. No other is about cursors.
#[tactic(auto, using(crate::proofs::Continued::about_none))]
pub fn is_cursor_command(command: &RawDocument<'_>) -> bool
    ensures exact { result ≡ is_cursor_command (fields command.now) }
    ensures others { result ≡ false → is_about_cursors (asked command.now) ≡ false }
{
    match command.iter().next() {
        Some((name, _)) => name == "getMore" || name == "killCursors",
        None => false,
    }
}

/// Whether the command names a collection in a database.
fn names_collection(command: &RawDocument<'_>) -> bool
    ensures { result ≡ is_some (space_at (codes "collection") (fields command.now)) }
{
    let Some(db) = text_at(command, "$db") else {
        return false;
    };
    if db.len() == 0 {
        return false;
    }
    if has_dot(db) {
        return false;
    }
    let Some(coll) = text_at(command, "collection") else {
        return false;
    };
    0 < coll.len()
}

/// The cursor that a getMore goes on with, whatever else the command has.
#[tactic(auto, using(crate::proofs::Continued::continued_is))]
pub fn continued_cursor(command: &RawDocument<'_>) -> Option<i64>
    ensures { result ≡ continued (asked command.now) }
{
    let (name, _) = command.iter().next()?;
    if name != "getMore" || !names_collection(command) {
        return None;
    }
    let found = command.get("getMore")?;
    integer_of(&found)
}
