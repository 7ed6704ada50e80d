// The columns of a line, written into the 113 bytes that are lent for it. A writer of a column also writes the space that ends it. Offsets
// count from 0, so they are one less than the columns of document 01.
ghost use Rattle.std.specs.Prelude.{◌≡◌, [], ◌∷◌, ◌+◌, ◌≤◌, ◌<◌};
ghost use Rattle.fields.specs.Text.{decimal, signed, hexadecimal};
ghost use Rattle.lent.specs.Placed.{placed};
ghost use Rattle.columns.specs.Placed.{with_space};
ghost use Rattle.columns.specs.Text.{line_length, time_of_day, track_columns, clock_columns, delay_columns, spaced, line_text};

use crate::LINE_LENGTH;
use labels::{Labels, Numbers};

fn put_byte(line: &mut [u8; LINE_LENGTH], at: usize, byte: u8)
    requires { at < line_length }
    ensures { line.new ≡ placed line.old at (byte ∷ []) }
{
    line[at] = byte;
}

// Digits with no space behind them.
fn put_digits(line: &mut [u8; LINE_LENGTH], at: usize, width: usize, value: u64)
    requires { at + width ≤ line_length }
    ensures { line.new ≡ placed line.old at (decimal width value) }
{
    fields::decimal(value, &mut line[at..at + width]);
}

// Kept: two writers of a column, as one that is handed the writer of its digits needs a contract of that writer, and is no shorter.
fn put_decimal(line: &mut [u8; LINE_LENGTH], at: usize, width: usize, value: u64)
    requires { at + width < line_length }
    ensures { line.new ≡ placed line.old at (with_space (decimal width value)) }
{
    put_digits(line, at, width, value);
    put_byte(line, at + width, b' ');
}

fn put_signed(line: &mut [u8; LINE_LENGTH], at: usize, width: usize, value: i64)
    requires { at + width < line_length }
    ensures { line.new ≡ placed line.old at (with_space (signed width value)) }
{
    fields::signed(value, &mut line[at..at + width]);
    put_byte(line, at + width, b' ');
}

// Two hexadecimal digits, with no space behind them.
fn put_hexadecimal(line: &mut [u8; LINE_LENGTH], at: usize, value: u8)
    requires { at + 2 ≤ line_length }
    ensures { line.new ≡ placed line.old at (hexadecimal value) }
{
    put_byte(line, at, fields::hex_digit(value / 16));
    put_byte(line, at + 1, fields::hex_digit(value));
}

// Columns 1 to 4.
fn put_satellite(line: &mut [u8; LINE_LENGTH], constellation: u8, satellite: u8)
    ensures { line.new ≡ placed line.old 0 (with_space (constellation ∷ decimal 2 satellite)) }
{
    put_byte(line, 0, constellation);
    put_decimal(line, 1, 2, satellite as u64);
}

// Columns 5 to 7.
fn put_class(line: &mut [u8; LINE_LENGTH], cl: u8)
    ensures { line.new ≡ placed line.old 4 (with_space (hexadecimal cl)) }
{
    put_hexadecimal(line, 4, cl);
    put_byte(line, 6, b' ');
}

// Columns 14 to 20: the start as hhmmss.
fn put_time(line: &mut [u8; LINE_LENGTH], second: u32)
    ensures { line.new ≡ placed line.old 13 (with_space (time_of_day second)) }
{
    put_digits(line, 13, 2, (second / 3600) as u64);
    put_digits(line, 15, 2, (second / 60 % 60) as u64);
    put_decimal(line, 17, 2, (second % 60) as u64);
}

// Columns 108 to 111.
fn put_code(line: &mut [u8; LINE_LENGTH], frc1: u8, frc2: u8, frc3: u8)
    ensures { line.new ≡ placed line.old 107 (with_space (frc1 ∷ frc2 ∷ frc3 ∷ [])) }
{
    put_byte(line, 107, frc1);
    put_byte(line, 108, frc2);
    put_byte(line, 109, frc3);
    put_byte(line, 110, b' ');
}

// Columns 1 to 34.
fn put_track(line: &mut [u8; LINE_LENGTH], labels: Labels, trkl: i64)
    ensures { line.new ≡ placed line.old 0 (spaced (track_columns labels trkl)) }
{
    put_satellite(line, labels.constellation, labels.satellite);
    put_class(line, labels.cl);
    put_decimal(line, 7, 5, labels.mjd as u64);
    put_time(line, labels.start);
    put_decimal(line, 20, 4, trkl.unsigned_abs());
    put_decimal(line, 25, 3, labels.elv as u64);
    put_decimal(line, 29, 4, labels.azth as u64);
}

// Columns 35 to 77.
fn put_clocks(line: &mut [u8; LINE_LENGTH], numbers: Numbers)
    ensures { line.new ≡ placed line.old 34 (spaced (clock_columns numbers)) }
{
    put_signed(line, 34, 11, numbers.refsv);
    put_signed(line, 46, 6, numbers.srsv);
    put_signed(line, 53, 11, numbers.refsys);
    put_signed(line, 65, 6, numbers.srsys);
    put_decimal(line, 72, 4, numbers.dsg.unsigned_abs());
}

// Columns 78 to 111.
fn put_delays(line: &mut [u8; LINE_LENGTH], labels: Labels, numbers: Numbers)
    ensures { line.new ≡ placed line.old 77 (spaced (delay_columns labels numbers)) }
{
    put_decimal(line, 77, 3, labels.ioe as u64);
    put_decimal(line, 81, 4, numbers.mdtr.unsigned_abs());
    put_signed(line, 86, 4, numbers.smdt);
    put_decimal(line, 91, 4, numbers.mdio.unsigned_abs());
    put_signed(line, 96, 4, numbers.smdi);
    put_decimal(line, 101, 2, labels.fr as u64);
    put_decimal(line, 104, 2, labels.hc as u64);
    put_code(line, labels.frc1, labels.frc2, labels.frc3);
}

// All columns, the checksum of the first 111 last.
pub fn put_line(line: &mut [u8; LINE_LENGTH], labels: Labels, numbers: Numbers)
    ensures { line.new ≡ line_text labels numbers }
{
    put_track(line, labels, numbers.trkl);
    put_clocks(line, numbers);
    put_delays(line, labels, numbers);
    let sum = fields::checksum(&line[..111]);
    put_hexadecimal(line, 111, sum);
}
