//! Names of fields. A short one stands in the field itself, and takes no memory of its own.
ghost use Rattle.std.specs.Prelude.{◌≡◌, IfOk, IsUtf8, length, take, ◌≤◌};

use std::alloc::{AllocError, Global};
use std::marker::Model;
use std::{fmt, str};

// The most bytes of a short name: with its length it takes as much room as a `String`.
const SHORT: usize = 23;

#[derive(Drop)]
enum Letters {
    // How many bytes there are, and those, with zeros behind them.
    Short(u8, [u8; SHORT]),
    Long(String),
}

// A name. In a contract it is its bytes.
pub(crate) struct Name {
    letters: Letters,
}

impl Model for Name {
    ghost use Rattle.std.specs.Prelude.{List, ℕ};
    ghost use Rattle.mg_bson.specs.Name.{letters_of, IsText};

    ghost Value = { List ℕ };

    ghost view = { λ n. letters_of n.letters };

    ghost invariant = { λ n. IsText n.letters };
}

// By hand, so that letting one go is one call.
impl Drop for Name {
    fn drop(self) {
        let Name { letters: _ } = self;
    }
}

impl Name {
    // A copy of the text. Only memory can fail.
    #[inline(always)]
    pub(crate) fn from_str(alloc: Global, text: &str) -> Result<Name, AllocError>
        ensures { IfOk result (λ name. name ≡ text.now) }
    {
        let len = text.len();
        if len > SHORT {
            return Name::long(alloc, text);
        }
        let mut bytes = [0; SHORT];
        bytes[..len].copy_from_slice(text.as_bytes());
        Ok(Name {
            letters: Letters::Short(len as u8, bytes),
        })
    }

    fn long(alloc: Global, text: &str) -> Result<Name, AllocError>
        ensures { IfOk result (λ name. name ≡ text.now) }
    {
        let text = String::from_str(alloc, text)?;
        Ok(Name {
            letters: Letters::Long(text),
        })
    }

    #[inline(always)]
    pub(crate) fn as_str(&self) -> &str
        ensures { result.now ≡ self.now }
    {
        match &self.letters {
            Letters::Short(len, bytes) => known_text(bytes, *len as usize),
            Letters::Long(text) => text.as_str(),
        }
    }
}

// The text of the bytes in front, which are known to be one.
#[inline(always)]
fn known_text(bytes: &[u8], len: usize) -> &str
    requires within { len ≤ length bytes.now }
    requires text { IsUtf8 (take len bytes.now) }
    ensures { result.now ≡ take len bytes.now }
{
    unsafe { str::from_utf8_unchecked(&bytes[..len]) }
}

impl Clone for Name {
    ghost is_clone = { λ v w. w ≡ v };

    fn clone(&self) -> Result<Name, AllocError> {
        match &self.letters {
            Letters::Short(len, bytes) => Ok(Name {
                letters: Letters::Short(*len, *bytes),
            }),
            Letters::Long(text) => Ok(Name {
                letters: Letters::Long(text.clone()?),
            }),
        }
    }
}

impl fmt::Debug for Name {
    fn fmt<W: fmt::Write>(&self, f: &mut fmt::Formatter<W>) -> fmt::Result {
        fmt::Debug::fmt(&self.as_str(), f)
    }
}
