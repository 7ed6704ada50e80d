// What stands in a data line (document 02, Jobs 1, 3 and 12): its labels and its ten numbers. It takes any bytes. A line whose characters are
// refused (crate characters) has that number; then a minus before a zero is 13, a label, a track length or a date that is out of range 7,
// and a start that is none 8. An old line, of version 01, is refused for the same, with the labels that are supplied.
#![tactic(auto)]

ghost use Rattle.std.specs.Prelude.{◌≡◌};
ghost use Rattle.columns.specs.Columns.{read_numbers};
ghost use Rattle.limits.specs.Numbers.{number_of};
ghost use Rattle.reading.specs.Read.{values_number, read_rule};
ghost use Rattle.reading.specs.Answers.{read_reply};
ghost use Rattle.reading.specs.Old.{old_number};

use labels::{Labels, Numbers, Supplied};
use limits::Refusal;
use values::Columns;

mod values;

// What stands in a line.
#[derive(Clone, Copy)]
pub struct Reading {
    pub labels: Labels,
    pub numbers: Numbers,
}

// What a line with these labels is refused for once its characters are those of its columns.
fn values_refusal(columns: Columns, labels: Labels, numbers: Numbers) -> Result<(), Refusal>
    requires { numbers ≡ read_numbers columns.line.now }
    ensures { number_of result ≡ values_number labels numbers columns.entry.line.now }
{
    if columns.minus_zero(numbers) {
        return Err(Refusal::Character);
    }
    labels::refusal(labels, numbers)?;
    if columns.time_beyond() {
        return Err(Refusal::Start);
    }
    Ok(())
}

// The labels and the numbers in the columns of a line.
pub fn read(line: &[u8]) -> Result<Reading, Refusal>
    ensures answer { read_reply result ≡ read_rule line.now }
{
    // the whole line, taken anew: so the compiler hands over its address and length, and not the place where both were just stored
    let line = &line[0..];
    characters::refusal(line)?;
    let columns = Columns { line };
    let labels = columns.labels();
    let numbers = columns.numbers();
    values_refusal(columns, labels, numbers)?;
    Ok(Reading { labels, numbers })
}

// What an old line is refused for, with the HC and the FRC that are supplied. Inlined, so that the labels are put together behind the characters.
#[inline(always)]
pub fn old_refusal(old: &[u8], supplied: Supplied) -> Result<(), Refusal>
    ensures { number_of result ≡ old_number supplied.hc supplied.frc1 supplied.frc2 supplied.frc3 old.now }
{
    characters::old_refusal(old)?;
    let columns = Columns { line: old };
    let labels = columns.labels_with(b'G', 0, supplied);
    let numbers = columns.numbers();
    values_refusal(columns, labels, numbers)
}
