// The fields of a line whose characters are those of its columns. Columns are counted from 1, as the papers count them.
ghost use Rattle.std.specs.Prelude.{◌≡◌, true, ◌≤◌, ◌+◌, ◌-◌, ◌^◌, ◌<◌, pos, length};
ghost use Rattle.fields.specs.Read.{read_decimal, read_signed, read_digit, read_hexadecimal};
ghost use Rattle.columns.specs.Columns.{field, labels_with_lem, read_labels, read_numbers};
ghost use Rattle.characters.specs.Kinds.{kinds, allowed};
ghost use Rattle.reading.specs.Read.{signed_fields, is_minus_zero_lem, minus_zero_lem, time_beyond_lem};
ghost use Rattle.reading.specs.Fields.{digits, hex_digits, IsHexDigit, Holds, Shared, Digits, Signed};

use labels::{Labels, Numbers, Supplied};

// A line of ours or an old one, whose columns 2 to 101 hold what they may hold.
#[derive(Clone, Copy)]
pub struct Columns<'a> {
    pub line: &'a [u8],
    ghost shared: { Shared line.now },
}

// The number of a row of digits.
fn digits(text: &[u8]) -> u64
    requires text_value { allowed (digits (length text.now)) text.now ≡ true }
    requires text_len_bound { length text.now ≤ 10 }
    ensures { result ≡ read_decimal text.now }
{
    let mut value: u64 = 0;
    for &digit in text {
        value = 10 * value + (digit - b'0') as u64;
    }
    value
}

// The value of a hexadecimal digit.
fn hex_value(b: u8) -> u8
    requires { IsHexDigit b }
    ensures { result ≡ read_digit b }
{
    if b'A' <= b { b - b'A' + 10 } else { b - b'0' }
}

// Whether a minus stands before a zero.
fn is_minus_zero(sign: u8, value: i64) -> bool
    ensures { result ≡ is_minus_zero_lem sign value }
{
    (sign == b'-') & (value == 0)
}

impl<'a> Columns<'a> {
    // The number in the columns from first to last, which is below the power of ten of so many digits.
    fn decimal(self, first: usize, last: usize) -> u64
        requires { Digits 10 first last self.line.now }
        ensures value { result ≡ read_decimal (field first last self.entry.line.now) }
        ensures small { result < 10 ^ (last + 1 - first) }
    {
        digits(&self.line[first - 1..last])
    }

    // The same as a signed number.
    fn natural(self, first: usize, last: usize) -> i64
        requires { Digits 10 first last self.line.now }
        ensures { result ≡ pos (read_decimal (field first last self.entry.line.now)) }
    {
        self.decimal(first, last) as i64
    }

    // The number in columns of which the first holds its sign.
    fn signed(self, first: usize, last: usize) -> i64
        requires { Signed 10 first last self.line.now }
        ensures { result ≡ read_signed (field first last self.entry.line.now) }
    {
        let size = self.natural(first + 1, last);
        if self.line[first - 1] == b'-' {
            return -size;
        }
        size
    }

    // The byte in columns 5 and 6.
    fn class(self) -> u8
        ensures { result ≡ read_hexadecimal (field 5 6 self.entry.line.now) }
    {
        16 * hex_value(self.line[4]) + hex_value(self.line[5])
    }

    // The start in seconds of the day.
    fn start(self) -> u32
        ensures { result ≡ (read_labels self.entry.line.now).start }
    {
        3600 * self.decimal(14, 15) as u32
            + 60 * self.decimal(16, 17) as u32
            + self.decimal(18, 19) as u32
    }

    // Whether the hour, the minute or the second is none of a day.
    pub fn time_beyond(self) -> bool
        ensures { result ≡ time_beyond_lem self.entry.line.now }
    {
        (23 < self.decimal(14, 15)) | (59 < self.decimal(16, 17)) | (59 < self.decimal(18, 19))
    }

    // The labels in columns 2 to 101, with these others.
    pub fn labels_with(self, constellation: u8, fr: u8, supplied: Supplied) -> Labels
        ensures { result ≡ labels_with_lem constellation fr supplied.hc supplied.frc1 supplied.frc2 supplied.frc3 self.entry.line.now }
    {
        Labels {
            constellation,
            satellite: self.decimal(2, 3) as u8,
            cl: self.class(),
            fr,
            hc: supplied.hc,
            frc1: supplied.frc1,
            frc2: supplied.frc2,
            frc3: supplied.frc3,
            mjd: self.decimal(8, 12) as u32,
            start: self.start(),
            elv: self.decimal(26, 28) as u16,
            azth: self.decimal(30, 33) as u16,
            ioe: self.decimal(78, 80) as u16,
        }
    }

    // The labels of a line of ours.
    pub fn labels(self) -> Labels
        requires { allowed kinds self.line.now ≡ true }
        ensures { result ≡ read_labels self.entry.line.now }
    {
        let fr = self.decimal(102, 103) as u8;
        let written = Supplied {
            hc: self.decimal(105, 106) as u8,
            frc1: self.line[107],
            frc2: self.line[108],
            frc3: self.line[109],
        };
        self.labels_with(self.line[0], fr, written)
    }

    pub fn numbers(self) -> Numbers
        ensures { result ≡ read_numbers self.entry.line.now }
    {
        Numbers {
            refsv: self.signed(35, 45),
            srsv: self.signed(47, 52),
            refsys: self.signed(54, 64),
            srsys: self.signed(66, 71),
            mdtr: self.natural(82, 85),
            smdt: self.signed(87, 90),
            mdio: self.natural(92, 95),
            smdi: self.signed(97, 100),
            dsg: self.natural(73, 76),
            trkl: self.natural(21, 24),
        }
    }

    // Whether a minus stands before a zero in one of the signed fields, whose numbers are given.
    pub fn minus_zero(self, numbers: Numbers) -> bool
        requires { numbers ≡ read_numbers self.line.now }
        ensures { result ≡ minus_zero_lem signed_fields self.entry.line.now }
    {
        is_minus_zero(self.line[34], numbers.refsv)
            | is_minus_zero(self.line[46], numbers.srsv)
            | is_minus_zero(self.line[53], numbers.refsys)
            | is_minus_zero(self.line[65], numbers.srsys)
            | is_minus_zero(self.line[86], numbers.smdt)
            | is_minus_zero(self.line[96], numbers.smdi)
    }
}
