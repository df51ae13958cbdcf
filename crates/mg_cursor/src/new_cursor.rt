//! Cursors of openings.
ghost use Rattle.mg_ops.specs.declared.cursor_reply.CursorSpecification.{CursorSpecification};

use mg_ops::CursorSpecification;
use std::alloc::Global;

/// What is made of the reply to an opening.
pub trait NewCursor: Sized {
    /// It is the cursor that was opened so.
    ghost is_opened: { CursorSpecification → Self → Type 0 };

    /// A cursor that is bound to no connection, and whose first batch is that of the opening. It takes no memory.
    fn new_cursor(alloc: Global, specification: CursorSpecification) -> Self
        ensures { is_opened specification result };
}
