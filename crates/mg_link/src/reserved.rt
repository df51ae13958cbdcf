//! Vectors in which room was made beforehand.
ghost use Rattle.std.specs.Prelude.{◌≡◌, ◌<◌, ◌++◌, ◌∷◌, [], vec_capacity, vec_len};

/// Adds an item to a vector that has room for it, which takes no memory.
pub fn push_reserved<T: Drop>(items: &mut Vec<T>, added: T)
    requires { vec_len items.old < vec_capacity items.old }
    ensures { items.new.items ≡ items.old.items ++ added ∷ [] }
{
    match items.push(added) {
        Ok(()) => {}
        Err(_) => unreachable!(),
    }
}
