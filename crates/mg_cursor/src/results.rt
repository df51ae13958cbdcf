//! What an advance of a cursor comes to.
ghost use Rattle.std.specs.Prelude.{◌≡◌};
ghost use Rattle.mg_cursor.specs.Results.{Maps, MayMap, advanced_value, transposed};

/// What an advance of a cursor came to.
#[derive(Debug, PartialEq, Eq, Drop)]
pub enum AdvanceResult<T> {
    /// There is a next document, and this is its value.
    Advanced(T),
    /// The cursor has come to its end, and gives no more documents.
    Exhausted,
    /// The batch was empty. A later one may hold documents.
    Waiting,
}

impl<T> AdvanceResult<T> {
    /// The value, where there is one.
    pub fn into_option(self) -> Option<T>
        ensures { result ≡ advanced_value self }
    {
        match self {
            AdvanceResult::Advanced(value) => Some(value),
            AdvanceResult::Exhausted => None,
            AdvanceResult::Waiting => None,
        }
    }

    /// With another value.
    pub fn map<U, F: FnOnce(T) -> U>(self, f: F) -> AdvanceResult<U>
        requires { MayMap (F.pre f) self }
        ensures { Maps (F.post f) self result }
    {
        match self {
            AdvanceResult::Advanced(value) => AdvanceResult::Advanced(f(value)),
            AdvanceResult::Exhausted => AdvanceResult::Exhausted,
            AdvanceResult::Waiting => AdvanceResult::Waiting,
        }
    }
}

impl<T, E> AdvanceResult<Result<T, E>> {
    /// With the error of the value outside.
    pub fn transpose(self) -> Result<AdvanceResult<T>, E>
        ensures { result ≡ transposed self }
    {
        match self {
            AdvanceResult::Advanced(Ok(value)) => Ok(AdvanceResult::Advanced(value)),
            AdvanceResult::Advanced(Err(error)) => Err(error),
            AdvanceResult::Exhausted => Ok(AdvanceResult::Exhausted),
            AdvanceResult::Waiting => Ok(AdvanceResult::Waiting),
        }
    }
}
