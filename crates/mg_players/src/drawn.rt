//! Ids that were drawn before they are needed.
ghost use Rattle.std.specs.Prelude.{◌≡◌, ◌<◌, ◌+◌, ℕ, IfErr, IfOk};
ghost use Rattle.mg_link.specs.Errors.{plain};
ghost use Rattle.mg_link.specs.declared.error.ErrorKind.TheVariants as kinds;
ghost use Rattle.mg_ops.specs.Drawn.{AreLater};
ghost use Rattle.mg_players.specs.Kept.{kept_id};

use mg_bson::ObjectId;
use mg_link::{Error, ErrorKind, IdSource, plain};
use std::alloc::Global;

/// Ids that are kept, and given one by one. Behind the last of them come ids of zeros, which nobody asks for.
#[derive(Drop)]
pub(crate) struct DrawnIds {
    ids: Vec<ObjectId>,
    next: usize,
}

impl IdSource for DrawnIds {
    ghost use Rattle.std.specs.Prelude.{◌+◌};
    ghost use Rattle.mg_players.specs.Kept.{kept_id};

    ghost ids = { λ d k. kept_id d.ids.items (d.next + k) };

    fn next_id(&mut self) -> ObjectId {
        let at = self.next;
        if at < self.ids.len() {
            self.next = at + 1;
            return copied(&self.ids[at]);
        }
        ObjectId([0; 12])
    }
}

/// The same id, which has twelve bytes.
fn copied(id: &ObjectId) -> ObjectId
    ensures same { result ≡ id.now }
{
    *id
}

/// Draws so many ids, also where there is no place to keep them: memory does not change which ids come next.
pub(crate) fn draw<I: IdSource>(alloc: Global, ids: &mut I, count: u32) -> Result<DrawnIds, Error>
    ensures kept { IfOk result (λ d. (k : ℕ) → k < count → kept_id d.ids.items (d.next + k) ≡ I.ids ids.old k) }
    ensures drawn { AreLater (I.ids ids.old) count (I.ids ids.new) }
    ensures err { IfErr result (λ e. e ≡ plain kinds.OutOfMemory) }
{
    let mut kept = Vec::new(alloc);
    let mut fits = true;
    for _number in 0..count {
        let id = ids.next_id();
        fits = fits && kept.push(id).is_ok();
    }
    if fits {
        Ok(DrawnIds { ids: kept, next: 0 })
    } else {
        Err(plain(ErrorKind::OutOfMemory))
    }
}
