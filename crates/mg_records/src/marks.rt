//! What a record of options is for, where records share their fields.

/// Documents are changed by modifications.
pub struct Modification;

/// A document is put into the place of another.
pub struct Replacement;

/// A document is taken away.
pub struct Deletion;

/// What writes a document: a modification or a replacement.
pub trait Writing {}

impl Writing for Modification {}

impl Writing for Replacement {}

/// Documents are counted.
pub struct Count;

/// The distinct values of a field are read.
pub struct Distinct;

/// The number of documents is estimated.
pub struct Estimate;

/// What looks at documents: a count, or distinct values.
pub trait Looking {}

impl Looking for Count {}

impl Looking for Distinct {}
