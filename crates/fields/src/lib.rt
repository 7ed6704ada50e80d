// Numbers as text for the columns of a line: decimals with zero fill, signed decimals, hexadecimal digits, and the checksum.
// A writer fills the whole part that it is lent. And digits as they stand in a text, for who compares them.
#![tactic(auto)]

ghost use Rattle.std.specs.Prelude.{◌≡◌, ◌*◌, ◌≤◌, length, get_or};
ghost use Rattle.fields.specs.Text.{decimal, sign, signed, hex_digit_lem, checksum};
ghost use Rattle.fields.specs.Raw.{two_digits_lem};

// The last decimal digits of value, one for each byte of out.
pub fn decimal(value: u64, out: &mut [u8])
    ensures { out.new ≡ decimal (length out.old) value }
{
    let mut rest = value;
    for i in (0..out.len()).rev() {
        out[i] = b'0' + (rest % 10) as u8;
        rest = rest / 10;
    }
}

// The byte + or -.
fn sign(value: i64) -> u8
    ensures { result ≡ sign value }
{
    if value < 0 { b'-' } else { b'+' }
}

// A sign, and the last decimal digits of the magnitude.
pub fn signed(value: i64, out: &mut [u8])
    ensures { out.new ≡ signed (length out.old) value }
{
    if let Some((first, digits)) = out.split_first_mut() {
        *first = sign(value);
        decimal(value.unsigned_abs(), digits);
    }
}

// The last hexadecimal digit of n, a capital letter from ten on.
pub fn hex_digit(n: u8) -> u8
    ensures { result ≡ hex_digit_lem n }
{
    let d = n % 16;
    if d < 10 { b'0' + d } else { b'A' + d - 10 }
}

// The sum of the bytes, modulo 256.
pub fn checksum(text: &[u8]) -> u8
    ensures { result ≡ checksum text.now }
{
    let mut sum: u8 = 0;
    for byte in text {
        sum = sum.wrapping_add(*byte);
    }
    sum
}

// A byte of a text. What stands past its end counts as 0.
pub fn byte_at(text: &[u8], at: usize) -> u64
    ensures { (result ≡ get_or text.now at 0) × (result ≤ 255) }
{
    text.get(at).map_or(0, |&byte| byte as u64)
}

// Two bytes of a text that stand for the digits of a number: 11 times '0' more than it. What stands past the end counts as 0.
pub fn two_digits(text: &[u8], at: usize) -> u64
    ensures { (result ≡ two_digits_lem at text.now) × (result ≤ 11 * 255) }
{
    if text.len() <= at {
        return 0;
    }
    10 * byte_at(text, at) + byte_at(text, at + 1)
}
