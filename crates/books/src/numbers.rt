// Big-endian numbers in a byte string. A byte past the end reads as 0.

ghost use Rattle.std.specs.Prelude.{◌≡◌, ℕ, ◌+◌, ◌<◌, drop, slice_index};
ghost use Rattle.books.specs.Bytes.{byte_at, u16_at, u32_at};

use std::array;

pub(crate) fn byte_at(bytes: &[u8], i: usize) -> u8
    ensures { result ≡ byte_at bytes.now i }
{
    bytes.get(i).copied().unwrap_or(0)
}

// The bytes from `start` on.
pub(crate) fn rest_at(bytes: &[u8], start: usize) -> &[u8]
    ensures { result.now ≡ drop start bytes.now }
{
    bytes.get(start..).unwrap_or(&[])
}

// The `N` bytes from `start` on.
fn bytes_at<const N: usize>(bytes: &[u8], start: usize) -> [u8; N]
    ensures { (k : ℕ) → k < N → slice_index result k ≡ byte_at bytes.now (start + k) }
{
    let rest = rest_at(bytes, start);
    array::from_fn(|k| byte_at(rest, k))
}

pub(crate) fn u16_at(bytes: &[u8], start: usize) -> u16
    ensures { result ≡ u16_at bytes.now start }
{
    u16::from_be_bytes(bytes_at(bytes, start))
}

pub(crate) fn u32_at(bytes: &[u8], start: usize) -> u32
    ensures { result ≡ u32_at bytes.now start }
{
    u32::from_be_bytes(bytes_at(bytes, start))
}
