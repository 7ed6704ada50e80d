// Lines for a version 01 receiver (document 02, Job 12). Down makes an old line, one of that form, of a line of ours whose letter is G, and
// drops comment, FR, HC and FRC. Up makes a line of ours of an old line, with letter G, FR 0 and the HC and FRC that are supplied, and drops
// the comment. Nothing is written before all is accepted, and nothing behind the columns.
#![tactic(auto)]

ghost use Rattle.std.specs.Prelude.{◌≡◌, ◌++◌, ◌+◌, ◌≤◌, length, drop};
ghost use Rattle.limits.specs.Numbers.{number_of};
ghost use Rattle.version01.specs.Convert.{form_text, down_answer, down_after, up_answer, up_after, old_length};

use columns::LINE_LENGTH;
use labels::Supplied;
use lent::put;
use limits::Refusal;

const OLD_LENGTH: usize = 103;

// The columns that both forms have end here.
const SHARED: usize = 101;

// Writes a first column, columns 2 to 101 of a line, the columns behind them, and CK.
fn write(first: u8, line: &[u8], behind: &[u8], lent: &mut [u8])
    requires in_bounds { 101 ≤ length line.now }
    requires behind_in_bounds { old_length + length behind.now ≤ length lent.old }
    ensures { lent.new ≡ form_text first line.now behind.now ++ drop (old_length + length behind.now) lent.old }
{
    let letter = [first];
    put(&letter, lent, 0);
    put(&line[1..SHARED], lent, 1);
    put(behind, lent, SHARED);
    let end = SHARED + behind.len();
    let sum = fields::checksum(&lent[..end]);
    let check = [fields::hex_digit(sum / 16), fields::hex_digit(sum)];
    put(&check, lent, end);
}

// A line of ours down to the old form, in the first 103 bytes of the lent line.
pub fn down(line: &[u8], old: &mut [u8]) -> Result<(), Refusal>
    ensures answer { number_of result ≡ down_answer line.now (length old.old) }
    ensures written { old.new ≡ down_after line.now old.old }
{
    let reading = reading::read(line)?;
    if reading.labels.constellation != b'G' {
        return Err(Refusal::NotGps);
    }
    if old.len() < OLD_LENGTH {
        return Err(Refusal::Lent);
    }
    write(b' ', line, &[], old);
    Ok(())
}

// An old line up to our form, in the first 113 bytes of the lent line.
pub fn up(old: &[u8], supplied: Supplied, line: &mut [u8]) -> Result<(), Refusal>
    ensures answer { number_of result ≡ up_answer supplied.hc supplied.frc1 supplied.frc2 supplied.frc3 old.now (length line.old) }
    ensures written { line.new ≡ up_after supplied.hc supplied.frc1 supplied.frc2 supplied.frc3 old.now line.old }
{
    reading::old_refusal(old, supplied)?;
    if line.len() < LINE_LENGTH {
        return Err(Refusal::Lent);
    }
    let Supplied {
        hc,
        frc1,
        frc2,
        frc3,
    } = supplied;
    let mut behind = [b'0', b'0', b' ', b'0', b'0', b' ', frc1, frc2, frc3, b' '];
    fields::decimal(hc as u64, &mut behind[3..5]);
    write(b'G', old, &behind, line);
    Ok(())
}
