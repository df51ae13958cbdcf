//! Copies of values that may be given.
ghost use Rattle.std.specs.Prelude.{◌≡◌, OnOk, OnErr};
ghost use Rattle.mg_options.specs.Copies.{AreGiven};

use std::alloc::AllocError;
use std::mem;

/// Puts a copy of what is given into its place, or nothing where nothing is given. Only memory can fail, and then the place is
/// as it was.
pub fn copy_given<T: Clone + Drop>(
    given: &Option<T>,
    place: &mut Option<T>,
) -> Result<(), AllocError>
    ensures ok { OnOk result (AreGiven T.is_clone given.now place.new) }
    ensures same { OnErr result (place.new ≡ place.old) }
{
    let copy = match given {
        Some(value) => Some(value.clone()?),
        None => None,
    };
    drop(mem::replace(place, copy));
    Ok(())
}
