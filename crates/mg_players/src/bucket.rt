//! The bucket that a job names.
ghost use Rattle.std.specs.Prelude.{◌≡◌, IfErr, IfOk, Some, string_bytes};
ghost use Rattle.mg_link.specs.Namespace.{as_database};
ghost use Rattle.mg_link.specs.Errors.{plain};
ghost use Rattle.mg_link.specs.declared.error.ErrorKind.TheVariants as kinds;
ghost use Rattle.mg_gridfs.specs.Buckets.{bucket_of};
ghost use Rattle.mg_players.specs.Buckets.{plain_bucket};

use mg_gridfs::{DatabaseDefaults, GridFsBucket, GridFsBucketOptions};
use mg_link::Error;
use mg_script::DatabaseName;
use std::alloc::Global;

/// A bucket that says nothing but its names.
pub(crate) fn bucket_named(
    alloc: Global,
    db: &DatabaseName,
    bucket: &String,
) -> Result<GridFsBucket, Error>
    ensures ok { IfOk result (λ b. bucket_of b ≡ plain_bucket (record { db = db.now; name = string_bytes bucket.now })) }
    ensures named { as_database db.now ≡ Some db.now }
    ensures err { IfErr result (λ e. e ≡ plain kinds.OutOfMemory) }
{
    let defaults = DatabaseDefaults {
        name: String::from_str(alloc, db.as_str())?,
        read_concern: None,
        write_concern: None,
        selection_criteria: None,
    };
    let options = GridFsBucketOptions::builder().bucket_name(bucket.clone()?);
    GridFsBucket::new(alloc, defaults, options)
}
