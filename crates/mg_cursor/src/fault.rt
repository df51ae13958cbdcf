//! Errors, and what is told of them.
ghost use Rattle.std.specs.Prelude.{◌≡◌, ◌↔◌, IsTrue};
ghost use Rattle.mg_server.specs.Step.{ends_cursor};
ghost use Rattle.mg_cursor.specs.Client.{is_ending};

use mg_link::{Error, ErrorKind};

/// Whether memory ran out.
pub fn is_memory(error: &Error) -> bool
    ensures { IsTrue result ↔ (error.now.kind ≡ ErrorKind.OutOfMemory) }
{
    matches!(error.kind, ErrorKind::OutOfMemory)
}

/// The code with which a server refuses a cursor that it does not hold.
const CURSOR_NOT_FOUND: i32 = 43;

/// The code with which a server refuses a cursor that was killed.
const CURSOR_KILLED: i32 = 237;

// Whether a refusal with this code says that.
fn is_end(code: i32) -> bool
    ensures { result ≡ ends_cursor code }
{
    code == CURSOR_NOT_FOUND || code == CURSOR_KILLED
}

/// Whether the server says that it holds the cursor no longer.
pub fn ends_cursor(error: &Error) -> bool
    ensures { result ≡ is_ending error.now.kind }
{
    match error.sdam_code() {
        Some(code) => is_end(code),
        None => false,
    }
}
