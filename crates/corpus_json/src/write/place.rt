// Writing at a place of a buffer that has room: two copies of a fixed size that overlap are cheaper for a short text than
// one of its length.
ghost use Rattle.std.specs.Prelude.{◌+◌, ◌≤◌, length, take};
ghost use Rattle.json.specs.Filled.{Placed};

use std::simd::Simd;

/// Copies the bytes to `at`, and gives the place behind them.
#[inline(always)]
pub(crate) fn place(buf: &mut [u8], at: usize, bytes: &[u8]) -> usize
    requires { at + length bytes.now ≤ length buf.old }
    ensures { Placed buf.old buf.new at bytes.now result }
{
    let end = at + bytes.len();
    buf[at..end].copy_from_slice(bytes);
    end
}

/// The same for at most 32 bytes.
#[inline(always)]
pub(crate) fn place_short(buf: &mut [u8], at: usize, bytes: &[u8]) -> usize
    requires short { length bytes.now ≤ 32 }
    requires room { at + length bytes.now ≤ length buf.old }
    ensures { Placed buf.old buf.new at bytes.now result }
{
    let len = bytes.len();
    if len >= 16 {
        place_ends::<16>(buf, at, bytes)
    } else if len >= 8 {
        place_ends::<8>(buf, at, bytes)
    } else if len >= 4 {
        place_ends::<4>(buf, at, bytes)
    } else if len >= 2 {
        place_ends::<2>(buf, at, bytes)
    } else if len == 1 {
        place_front::<1>(buf, at, bytes)
    } else {
        at
    }
}

#[inline(always)]
fn place_ends<const N: usize>(buf: &mut [u8], at: usize, bytes: &[u8]) -> usize
    requires room { at + length bytes.now ≤ length buf.old }
    requires covers { (N ≤ length bytes.now) × (length bytes.now ≤ N + N) }
    ensures { Placed buf.old buf.new at bytes.now result }
{
    let last = bytes.len() - N;
    place_front::<N>(buf, at, bytes);
    place_front::<N>(buf, at + last, &bytes[last..])
}

#[inline(always)]
fn place_front<const N: usize>(buf: &mut [u8], at: usize, bytes: &[u8]) -> usize
    requires { (N ≤ length bytes.now) × (at + N ≤ length buf.old) }
    ensures { Placed buf.old buf.new at (take N bytes.now) result }
{
    Simd::<u8, N>::from_slice(bytes).copy_to_slice(&mut buf[at..]);
    at + N
}
