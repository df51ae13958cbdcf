//! How many chunks a file has, and how long each is.
ghost use Rattle.std.specs.Prelude.{◌≡◌, ◌+◌, ◌<◌, ◌≤◌, ◌%◌, ◌^◌, Ok, IfOk, IfErr, OnOk, OnErr};
ghost use Rattle.mg_link.specs.Errors.{plain};
ghost use Rattle.mg_link.specs.declared.error.ErrorKind.TheVariants as kinds;
ghost use Rattle.mg_chunks.specs.Broken.{Breaks};
ghost use Rattle.mg_chunks.specs.Sizes.{chunk_count_of, chunk_length_of};

use mg_link::{Error, ErrorKind, Malformed, plain};

/// The greatest number that a chunk may have: the greatest Int32.
const GREATEST_NUMBER: u32 = 2_147_483_647;

/// How many bytes a file has, and how many each of its chunks has, but for the last.
#[derive(Clone, Copy)]
pub struct FileSizes {
    /// How many bytes it has.
    pub length: u64,
    /// How many bytes each of its chunks has, but for the last.
    pub chunk_size: u32,
}

/// How many chunks of this size hold so many bytes. It fails where they have no bytes, or are more than a u32 counts.
pub fn n_from_vals(length: u64, size: u32) -> Result<u32, Error>
    ensures ok { IfOk result (λ n. chunk_count_of length size ≡ Ok n) }
    ensures err { IfErr result (λ e. Breaks (chunk_count_of length size) e) }
{
    if size == 0 {
        return Err(plain(ErrorKind::InvalidResponse(Malformed::ChunkSizeZero)));
    }
    match u32::try_from(length.div_ceil(u64::from(size))) {
        Ok(n) => Ok(n),
        Err(_) => Err(plain(ErrorKind::InvalidResponse(Malformed::TooManyChunks))),
    }
}

/// How many bytes the chunk of this number has, from 0, of so many bytes in chunks of this size: the rest in the last
/// one, where a rest is left, and the full size in each other, also in one past the end. It fails as `n_from_vals` does.
pub fn expected_chunk_length(length: u64, size: u32, n: u32) -> Result<u32, Error>
    ensures ok { IfOk result (λ bytes. chunk_length_of length size n ≡ Ok bytes) }
    ensures err { IfErr result (λ e. Breaks (chunk_length_of length size n) e) }
{
    let count = n_from_vals(length, size)?;
    let rest = rest(length, size);
    if u64::from(n) + 1 == u64::from(count) && rest != 0 {
        Ok(rest)
    } else {
        Ok(size)
    }
}

// How many bytes are left behind full chunks.
fn rest(length: u64, size: u32) -> u32
    requires { 0 < size }
    ensures { result ≡ length % size }
{
    (length % u64::from(size)) as u32
}

/// The last number of so many chunks, whose numbers go up by one from the first. It fails where it passes 2,147,483,647.
pub fn last_number(first: u32, count: u32) -> Result<u32, Error>
    requires { 0 < count }
    ensures ok { IfOk result (λ last. last + 1 ≡ first + count) }
    ensures fits { OnOk result (first + count ≤ 2 ^ 31) }
    ensures err { IfErr result (λ e. e ≡ plain kinds.FileTooLarge) }
    ensures passes { OnErr result (2 ^ 31 < first + count) }
{
    match first.checked_add(count - 1) {
        Some(last) if last <= GREATEST_NUMBER => Ok(last),
        _ => Err(plain(ErrorKind::FileTooLarge)),
    }
}
