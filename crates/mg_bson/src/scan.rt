//! Where texts end that a 0 ends. They are looked through 16 bytes at a time.
ghost use Rattle.std.specs.Prelude.{◌≡◌, ◌≢◌, ℕ, ◌+◌, ◌<◌, ◌≤◌, length, slice_index, option_map, IfSome, IsTrue};
ghost use Rattle.std.specs.Str.{IsUtf8};
ghost use Rattle.mg_bson.specs.Reading.{cut};
ghost use Rattle.mg_bson.specs.Scan.{first_set, AreNonZero, IsNonZeroAscii, AreNonZeroAscii};

use std::simd::prelude::*;

// The place of the lowest bit that is set, or 16.
#[inline(always)]
fn first_set(mask: u64) -> usize
    ensures { result ≡ first_set mask }
{
    if mask == 0 {
        16
    } else {
        mask.trailing_zeros() as usize
    }
}

// How many of the 16 bytes from `at` on come before the first that is 0 or no ASCII.
#[inline(always)]
fn ascii_run(bytes: &[u8], at: usize) -> usize
    requires { at + 16 ≤ length bytes.now }
    ensures within { result ≤ 16 }
    ensures ascii { (k : ℕ) → at ≤ k → k < at + result → IsNonZeroAscii (slice_index bytes.now k) }
{
    // 128 more, which wraps, brings 0 and all that is no ASCII below 129, so one comparison finds both.
    let moved = u8x16::from_slice(&bytes[at..]) + u8x16::splat(128);
    first_set(moved.simd_lt(u8x16::splat(129)).to_bitmask())
}

// Where the first byte stands from `from` on that is 0 or no ASCII, or the length. It goes byte by byte.
#[inline(always)]
fn ascii_end_from(bytes: &[u8], from: usize) -> usize
    requires within { from ≤ length bytes.now }
    requires ascii { AreNonZeroAscii bytes.now from }
    ensures within { result ≤ length bytes.now }
    ensures ascii { AreNonZeroAscii bytes.now result }
{
    let mut end = from;
    while end < bytes.len() && bytes[end] != 0 && bytes[end] < 128 {
        end += 1;
    }
    end
}

// Where the first byte stands that is 0 or no ASCII, or the length.
#[inline(always)]
fn ascii_end(bytes: &[u8]) -> usize
    ensures within { result ≤ length bytes.now }
    ensures ascii { AreNonZeroAscii bytes.now result }
{
    let mut end = 0;
    while bytes.len() - end >= 16 {
        let run = ascii_run(bytes, end);
        end += run;
        if run < 16 {
            return end;
        }
    }
    ascii_end_from(bytes, end)
}

// How many of the 16 bytes from `at` on come before the first that is 0.
#[inline(always)]
fn zero_run(bytes: &[u8], at: usize) -> usize
    requires { at + 16 ≤ length bytes.now }
    ensures within { result ≤ 16 }
    ensures before { (k : ℕ) → at ≤ k → k < at + result → slice_index bytes.now k ≢ 0 }
    ensures zero { result < 16 → slice_index bytes.now (at + result) ≡ 0 }
{
    let block = u8x16::from_slice(&bytes[at..]);
    first_set(block.simd_eq(u8x16::splat(0)).to_bitmask())
}

// Where the first 0 stands from `from` on, or the length. It goes byte by byte.
#[inline(always)]
fn zero_end_from(bytes: &[u8], from: usize) -> usize
    requires within { from ≤ length bytes.now }
    requires before { AreNonZero bytes.now from }
    ensures within { result ≤ length bytes.now }
    ensures before { AreNonZero bytes.now result }
    ensures zero { result < length bytes.now → slice_index bytes.now result ≡ 0 }
{
    let mut end = from;
    while end < bytes.len() && bytes[end] != 0 {
        end += 1;
    }
    end
}

// Where the first 0 stands, or the length.
#[inline(always)]
fn zero_end(bytes: &[u8]) -> usize
    ensures within { result ≤ length bytes.now }
    ensures before { AreNonZero bytes.now result }
    ensures zero { result < length bytes.now → slice_index bytes.now result ≡ 0 }
{
    let mut end = 0;
    while bytes.len() - end >= 16 {
        let run = zero_run(bytes, end);
        end += run;
        if run < 16 {
            return end;
        }
    }
    zero_end_from(bytes, end)
}

// The bytes before the first 0, and those behind it.
#[inline(always)]
pub(crate) fn cut_at_zero(bytes: &[u8]) -> Option<(&[u8], &[u8])>
    ensures { option_map (λ p. (p.0.now, p.1.now)) result ≡ cut bytes.now }
{
    let end = zero_end(bytes);
    if end == bytes.len() {
        return None;
    }
    Some((&bytes[..end], &bytes[end + 1..]))
}

// The same, and whether the bytes before the 0 are known to be ASCII.
#[inline(always)]
pub(crate) fn cut_and_look(bytes: &[u8]) -> Option<(&[u8], &[u8], bool)>
    ensures cut { option_map (λ p. (p.0.now, p.1.now)) result ≡ cut bytes.now }
    ensures ascii { IfSome result (λ p. IsTrue p.2 → IsUtf8 p.0.now) }
{
    let end = ascii_end(bytes);
    if end == bytes.len() {
        return None;
    }
    if bytes[end] == 0 {
        return Some((&bytes[..end], &bytes[end + 1..], true));
    }
    let (front, behind) = cut_at_zero(bytes)?;
    Some((front, behind, false))
}
