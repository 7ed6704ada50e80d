// Numbers out of bytes: little-endian, unsigned, and signed 64-bit in two's complement. A number that does not lie whole within the
// bytes reads as 0, so that every offset is answered.
#![tactic(auto)]

ghost use Rattle.std.specs.Prelude.{◌≡◌, ◌+◌, length, leb};
ghost use Rattle.decode.specs.Number.{little, unsigned_at, signed_at_lem, signeds_at};

mod inside;

// Whether width bytes lie at the offset.
fn lies(bytes: &[u8], at: usize, width: usize) -> bool
    ensures { result ≡ leb (at + width) (length bytes.now) }
{
    at <= bytes.len() && width <= bytes.len() - at
}

// The N bytes at the offset, or zeros where they do not all lie there.
fn chunk<const N: usize>(bytes: &[u8], at: usize) -> [u8; N]
    ensures { little result ≡ unsigned_at N bytes.now at }
{
    if lies(bytes, at, N) {
        inside::chunk(bytes, at)
    } else {
        [0; N]
    }
}

// The unsigned numbers of two and four bytes.
pub fn unsigned16(bytes: &[u8], at: usize) -> u16
    ensures { result ≡ unsigned_at 2 bytes.now at }
{
    u16::from_le_bytes(chunk(bytes, at))
}

pub fn unsigned32(bytes: &[u8], at: usize) -> u32
    ensures { result ≡ unsigned_at 4 bytes.now at }
{
    u32::from_le_bytes(chunk(bytes, at))
}

// The signed number of eight bytes.
pub fn signed64(bytes: &[u8], at: usize) -> i64
    ensures { result ≡ signed_at_lem bytes.now at }
{
    i64::from_le_bytes(chunk(bytes, at))
}

// Fills out with signed numbers, the first at an offset and each a stride behind the one before.
pub fn fill(bytes: &[u8], at: usize, stride: usize, out: &mut [i64])
    ensures { out.new ≡ signeds_at bytes.now at stride (length out.old) }
{
    if inside::row_lies(bytes, at, stride, out.len()) {
        return inside::fill(bytes, at, stride, out);
    }
    fill_past(bytes, at, stride, out)
}

// The same for a row of which not all may lie within the bytes. A place too far for an offset is past the end too.
fn fill_past(bytes: &[u8], at: usize, stride: usize, out: &mut [i64])
    ensures { out.new ≡ signeds_at bytes.now at stride (length out.old) }
{
    let mut next = at;
    for number in out.iter_mut() {
        *number = signed64(bytes, next);
        next = next.saturating_add(stride);
    }
}
