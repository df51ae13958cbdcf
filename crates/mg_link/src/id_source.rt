//! Where new ids come from.
ghost use Rattle.std.specs.Prelude.{◌≡◌, ◌+◌, ℕ, List};
ghost use Rattle.mg_link.specs.Ids.{counted_id};

use mg_bson::ObjectId;
use std::marker::Model;

/// A source of ids.
pub trait IdSource {
    /// The id that the call of this number from now on gives, counted from 0.
    ghost ids: { Self → ℕ → List ℕ };

    /// The next id.
    fn next_id(&mut self) -> ObjectId
        ensures id { result.0 ≡ ids self.old 0 }
        ensures later { (k : ℕ) → ids self.new k ≡ ids self.old (k + 1) };
}

/// Ids of four bytes that stay and a counter in eight big-endian bytes, from 0 upwards.
///
/// Behind the greatest number comes 0 again, so any 2^64 ids in a row differ.
#[derive(Drop)]
pub struct CountedIds {
    prefix: [u8; 4],
    next: u64,
}

impl Model for CountedIds {
    ghost use Rattle.mg_link.specs.Ids.{Counter};

    ghost Value = { Counter };

    ghost view = { λ c. record { prefix = c.prefix; next = c.next } };
}

impl CountedIds {
    /// Ids with this prefix, the first of which has the number 0.
    pub fn new(prefix: [u8; 4]) -> CountedIds
        ensures { result ≡ record { prefix = prefix; next = 0 } }
    {
        CountedIds { prefix, next: 0 }
    }
}

impl IdSource for CountedIds {
    ghost ids = { λ c k. counted_id c.prefix (c.next + k) };

    fn next_id(&mut self) -> ObjectId {
        let [a, b, c, d] = self.prefix;
        let [e, f, g, h, i, j, k, l] = self.next.to_be_bytes();
        self.next = self.next.wrapping_add(1);
        ObjectId([a, b, c, d, e, f, g, h, i, j, k, l])
    }
}
