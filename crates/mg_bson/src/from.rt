//! Plain values as values of a document.
ghost use Rattle.std.specs.Prelude.{◌≡◌, string_bytes};
ghost use Rattle.mg_bson.specs.Tree.{string, document, array, binary, object_id, boolean, date_time, int32, timestamp, int64};
ghost use Rattle.mg_bson.specs.View.{tree};

use crate::object_id::ObjectId;
use crate::tree::{Array, Binary, Bson, DateTime, Document, Timestamp};

impl From<String> for Bson {
    ghost from_gives = { λ text b. tree b ≡ string (string_bytes text) };

    fn from(text: String) -> Bson {
        Bson::String(text)
    }
}

impl From<Document> for Bson {
    ghost from_gives = { λ fields b. tree b ≡ document fields };

    fn from(fields: Document) -> Bson {
        Bson::Document(fields)
    }
}

impl From<Array> for Bson {
    ghost from_gives = { λ items b. tree b ≡ array items };

    fn from(items: Array) -> Bson {
        Bson::Array(items)
    }
}

impl From<Binary> for Bson {
    ghost from_gives = { λ bytes b. tree b ≡ binary bytes.subtype bytes.bytes.items };

    fn from(bytes: Binary) -> Bson {
        Bson::Binary(bytes)
    }
}

impl From<ObjectId> for Bson {
    ghost from_gives = { λ id b. tree b ≡ object_id id.0 };

    fn from(id: ObjectId) -> Bson {
        Bson::ObjectId(id)
    }
}

impl From<bool> for Bson {
    ghost from_gives = { λ flag b. tree b ≡ boolean flag };

    fn from(flag: bool) -> Bson {
        Bson::Boolean(flag)
    }
}

impl From<DateTime> for Bson {
    ghost from_gives = { λ time b. tree b ≡ date_time time.millis };

    fn from(time: DateTime) -> Bson {
        Bson::DateTime(time)
    }
}

impl From<i32> for Bson {
    ghost from_gives = { λ n b. tree b ≡ int32 n };

    fn from(n: i32) -> Bson {
        Bson::Int32(n)
    }
}

impl From<Timestamp> for Bson {
    ghost from_gives = { λ t b. tree b ≡ timestamp t.time t.increment };

    fn from(t: Timestamp) -> Bson {
        Bson::Timestamp(t)
    }
}

impl From<i64> for Bson {
    ghost from_gives = { λ n b. tree b ≡ int64 n };

    fn from(n: i64) -> Bson {
        Bson::Int64(n)
    }
}
