// The walk over two line files. It is made once to measure what merge makes of them, and once more to write it.
ghost use Rattle.std.specs.Prelude.{◌≡◌, not, ◌≤◌, ◌++◌, length, drop};
ghost use Rattle.limits.specs.Numbers.{reply_of};
ghost use Rattle.linefile.specs.Files.{same, joined};
ghost use Rattle.merging.specs.Merge.{merged, measure_rule};

use columns::ENDED_LENGTH;
use lent::put;
use limits::Refusal;
use linefile::{AcceptedLines, EndedLine, Step};

// Whether two lines differ.
fn differ(line: &EndedLine, other: &EndedLine) -> bool
    ensures { result ≡ not (same line.now other.now) }
{
    // Kept: a loop over all bytes, as `==` on arrays calls memcmp and the archive may need memset alone.
    let mut equal = true;
    for (a, b) in line.iter().zip(other) {
        equal = equal & (a == b);
    }
    !equal
}

// How many bytes the result has. 15 where two lines of the same keys differ.
pub fn measure(first: AcceptedLines, second: AcceptedLines) -> Result<usize, Refusal>
    ensures { reply_of 0 result ≡ measure_rule first.entry.lines.now second.entry.lines.now }
{
    let mut bytes = 0;
    for step in first.walk(second) {
        if let Step::Both(line, other) = step {
            if differ(line, other) {
                return Err(Refusal::Differ);
            }
        }
        bytes += ENDED_LENGTH;
    }
    Ok(bytes)
}

// Puts the result into the lent file.
pub fn write(first: AcceptedLines, second: AcceptedLines, file: &mut [u8])
    requires { length (joined (merged first.lines.now second.lines.now)) ≤ length file.old }
    ensures { file.new ≡ joined (merged first.entry.lines.now second.entry.lines.now) ++ drop (length (joined (merged first.entry.lines.now second.entry.lines.now))) file.old }
{
    let mut at = 0;
    for passed in first.walk(second) {
        put(passed.line(), file, at);
        at += ENDED_LENGTH;
    }
}
