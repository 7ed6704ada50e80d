// What the characters of a line are refused for (document 02, Jobs 1 and 12): its length (12), CK (14), and a character that is not allowed
// in its column or in the comment (13). It takes any bytes. A line is one of ours or an old one, of version 01. What stands in a line whose
// characters are accepted is read by crate reading.
#![tactic(auto)]

ghost use Rattle.std.specs.Prelude.{◌≡◌, ◌+◌, ◌≤◌, ◌∷◌, length, take, drop};
ghost use Rattle.limits.specs.Numbers.{number_of};
ghost use Rattle.characters.specs.Kinds.{within, letter_fits_lem, allows, kinds, allowed, printable, checked};
ghost use Rattle.characters.specs.Characters.{our_characters_number, old_characters_number};
ghost use Rattle.characters.specs.Forms.{columns_of, longest_of, first_kind_of, kinds_of, form_number};

use limits::Refusal;

// A line of ours, or an old one.
#[derive(Clone, Copy)]
enum Form {
    Ours,
    Old,
}

fn within(low: u8, high: u8, b: u8) -> bool
    ensures { result ≡ within low high b }
{
    (low..=high).contains(&b)
}

fn letter_fits(b: u8) -> bool
    ensures { result ≡ letter_fits_lem b }
{
    matches!(b, b'G' | b'R' | b'E' | b'C' | b'J')
}

// Kept: a letter for a kind, as a row of them reads like the line that it is laid over.
// Whether a column of this kind may hold the byte. The kinds are L a constellation letter, 9 a digit, F a hexadecimal digit, + a sign, Z a
// character of FRC, and a space for itself.
fn allows(kind: u8, b: u8) -> bool
    ensures { result ≡ allows kind b }
{
    let digit = within(b'0', b'9', b);
    (kind == b'L') & letter_fits(b)
        | (kind == b'9') & digit
        | (kind == b'F') & (digit | within(b'A', b'F', b))
        | (kind == b'+') & ((b == b'+') | (b == b'-'))
        | (kind == b'Z') & (within(b'A', b'Z', b) | digit)
        | (kind == b' ') & (b == b' ')
}

// Whether the columns of these kinds hold what they may hold. No column ends the loop, so that many are tested at once.
fn columns_fit(kinds: &[u8], line: &[u8]) -> bool
    requires { length kinds.now ≡ length line.now }
    ensures { result ≡ allowed kinds.now line.now }
{
    let mut fit = true;
    for (&kind, &b) in kinds.iter().zip(line) {
        fit = fit & allows(kind, b);
    }
    fit
}

// The same of the columns behind so many.
fn row_fits(kinds: &[u8], before: usize, line: &[u8]) -> bool
    requires { before + length kinds.now ≤ length line.now }
    ensures { result ≡ allowed kinds.now (drop before line.now) }
{
    columns_fit(kinds, &line[before..before + kinds.len()])
}

// Whether all bytes of a comment may stand there.
fn comment_fits(text: &[u8]) -> bool
    ensures { result ≡ printable text.now }
{
    let mut fit = true;
    for &b in text {
        fit = fit & within(0x20, 0x7E, b);
    }
    fit
}

// Whether CK stands behind so many columns and is their checksum, in capital digits.
fn checked(columns: usize, line: &[u8]) -> bool
    requires { columns + 2 ≤ length line.now }
    ensures { result ≡ checked columns line.now }
{
    let sum = fields::checksum(&line[..columns]);
    (line[columns] == fields::hex_digit(sum / 16)) & (line[columns + 1] == fields::hex_digit(sum))
}

// Whether columns 1 to 96, the first of which is of this kind, hold what they may hold. A row is sixteen columns, as the compiler tests so
// many at once. Each row has its own kinds: the compiler takes them for a constant, where one table for all would be copied to the stack.
fn first_fit(kind: u8, line: &[u8]) -> bool
    requires { 96 ≤ length line.now }
    ensures { result ≡ allowed (kind ∷ take 95 (drop 1 kinds)) line.now }
{
    let mut first = *b"L99 FF 99999 999";
    first[0] = kind;
    row_fits(&first, 0, line)
        & row_fits(b"999 9999 999 999", 16, line)
        & row_fits(b"9 +9999999999 +9", 32, line)
        & row_fits(b"9999 +9999999999", 48, line)
        & row_fits(b" +99999 9999 999", 64, line)
        & row_fits(b" 9999 +999 9999 ", 80, line)
}

impl Form {
    // How many columns stand before CK.
    fn columns(self) -> usize
        ensures { result ≡ columns_of self }
    {
        match self {
            Form::Ours => 111,
            Form::Old => 101,
        }
    }

    // How long a line may be with its comment.
    fn longest(self) -> usize
        ensures { result ≡ longest_of self }
    {
        match self {
            Form::Ours => 140,
            Form::Old => 128,
        }
    }

    // The kind of column 1.
    fn first_kind(self) -> u8
        ensures { result ≡ first_kind_of self }
    {
        match self {
            Form::Ours => b'L',
            Form::Old => b' ',
        }
    }

    // Whether the columns before CK hold what they may hold. The last row has sixteen columns too, so that column 96 is tested twice, and of an
    // old line columns 86 to 96.
    fn kinds_fit(self, line: &[u8]) -> bool
        requires { columns_of self ≤ length line.now }
        ensures { result ≡ allowed (kinds_of self) line.now }
    {
        let first = first_fit(self.first_kind(), line);
        match self {
            Form::Ours => first & row_fits(b" +999 99 99 ZZZ ", 95, line),
            Form::Old => first & row_fits(b" +999 9999 +999 ", 85, line),
        }
    }

    // 12, 14 and 13 of a line. Inlined, so that the compiler knows the form's columns.
    #[inline(always)]
    fn refusal(self, line: &[u8]) -> Result<(), Refusal>
        ensures { number_of result ≡ form_number self line.now }
    {
        let columns = self.columns();
        if (line.len() < columns + 2) | (self.longest() < line.len()) {
            return Err(Refusal::LineLength);
        }
        if !checked(columns, line) {
            return Err(Refusal::Checksum);
        }
        if !self.kinds_fit(line) | !comment_fits(&line[columns + 2..]) {
            return Err(Refusal::Character);
        }
        Ok(())
    }
}

// 12, 14 and 13 of a line of ours.
pub fn refusal(line: &[u8]) -> Result<(), Refusal>
    ensures { number_of result ≡ our_characters_number line.now }
{
    Form::Ours.refusal(line)
}

// The same of an old line, whose first column is blank.
pub fn old_refusal(old: &[u8]) -> Result<(), Refusal>
    ensures { number_of result ≡ old_characters_number old.now }
{
    Form::Old.refusal(old)
}
