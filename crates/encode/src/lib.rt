// Numbers into bytes: little-endian, unsigned, and signed 64-bit in two's complement. A writer fills the whole part that it is lent.
#![tactic(auto)]

ghost use Rattle.std.specs.Prelude.{◌≡◌, length};
ghost use Rattle.encode.specs.Encode.{little_bytes, pattern_of};

// The lowest bytes of value, one for each byte of out.
pub fn unsigned(value: u64, out: &mut [u8])
    ensures { out.new ≡ little_bytes (length out.old) value }
{
    let mut rest = value;
    for byte in out.iter_mut() {
        *byte = (rest % 256) as u8;
        rest = rest / 256;
    }
}

// A signed number as a pattern of 64 bits.
pub fn pattern(value: i64) -> u64
    ensures { result ≡ pattern_of value }
{
    value.cast_unsigned()
}
