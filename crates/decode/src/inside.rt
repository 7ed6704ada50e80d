// Numbers that lie whole within the bytes.
ghost use Rattle.std.specs.Prelude.{◌≡◌, ◌+◌, ◌≤◌, length, take, drop, true};
ghost use Rattle.decode.specs.Number.{signeds_at};
ghost use Rattle.decode.specs.Row.{row_lies_lem};

use std::array::from_fn;

// The N bytes at the offset.
pub fn chunk<const N: usize>(bytes: &[u8], at: usize) -> [u8; N]
    requires { at + N ≤ length bytes.now }
    ensures { result ≡ take N (drop at bytes.now) }
{
    from_fn(|k| bytes[at + k])
}

// Whether so many signed numbers, the first at an offset and each a stride behind the one before, all lie within the bytes: none, or the last of them
// does.
pub fn row_lies(bytes: &[u8], at: usize, stride: usize, count: usize) -> bool
    ensures { result ≡ row_lies_lem (length bytes.now) at stride count }
{
    count == 0 || at as u128 + stride as u128 * (count - 1) as u128 + 8 <= bytes.len() as u128
}

// Fills out with the signed numbers of such a row.
pub fn fill(bytes: &[u8], at: usize, stride: usize, out: &mut [i64])
    requires { row_lies_lem (length bytes.now) at stride (length out.old) ≡ true }
    ensures { out.new ≡ signeds_at bytes.now at stride (length out.old) }
{
    for (i, number) in out.iter_mut().enumerate() {
        *number = i64::from_le_bytes(chunk(bytes, at + stride * i));
    }
}
