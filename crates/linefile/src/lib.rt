// Line files: lines of 115 bytes, each 113 columns and a line end, that ascend strictly by MJD, start, constellation letter and satellite
// number. What a file is refused for, by the numbers and in the order of document 02, Job 5, the lines of one that is accepted, and the walk over
// those of two, line by line, always at the earlier of the two lines.
#![tactic(auto)]

ghost use Rattle.std.specs.Prelude.{◌≡◌, IfOk};
ghost use Rattle.limits.specs.Numbers.{number_of};
ghost use Rattle.limits.specs.Refusal.{◌then◌};
ghost use Rattle.linefile.specs.Files.{lines, file_number};

use columns::ENDED_LENGTH;
use limits::Refusal;

mod accepted_lines;
mod judge;
mod rank;
mod step;
mod walk;

pub use accepted_lines::{AcceptedLines, EndedLine};
pub use step::Step;
pub use walk::Walk;

// What a file is refused for. The lines are read one by one up to the first that is refused; then the tail is looked at.
pub fn refusal(file: &[u8]) -> Result<(), Refusal>
    ensures { number_of result ≡ file_number file.now }
{
    let (lines, tail) = file.as_chunks::<ENDED_LENGTH>();
    let mut last = 0;
    for line in lines {
        judge::line_refusal(line)?;
        let place = rank::rank(line);
        if place <= last {
            return Err(Refusal::Order);
        }
        last = place;
    }
    if !tail.is_empty() {
        return Err(Refusal::LineLength);
    }
    Ok(())
}

// The lines of a file that is not refused.
pub fn accepted(file: &[u8]) -> Result<AcceptedLines<'_>, Refusal>
    ensures number { number_of result ≡ file_number file.now }
    ensures lines { IfOk result (λ accepted. accepted.lines.now ≡ lines file.now) }
{
    refusal(file)?;
    let (lines, _) = file.as_chunks::<ENDED_LENGTH>();
    Ok(AcceptedLines { lines })
}

// The lines of two files. The first is refused before the second, which is not read then.
pub fn both_accepted<'a>(
    first: &'a [u8],
    second: &'a [u8],
) -> Result<(AcceptedLines<'a>, AcceptedLines<'a>), Refusal>
    ensures number { number_of result ≡ file_number first.now then file_number second.now }
    ensures lines { IfOk result (λ accepted. (accepted.0.lines.now ≡ lines first.now) × (accepted.1.lines.now ≡ lines second.now)) }
{
    let lines = accepted(first)?;
    Ok((lines, accepted(second)?))
}
