// The report on two line files in common view (document 02, Job 6). A file of more than 10000 lines is refused before any is read (19), then the
// first file and then the second by what they are refused for themselves, and files without a pair in the end (18).
#![tactic(auto)]

ghost use Rattle.std.specs.Prelude.{◌≡◌, []};
ghost use Rattle.limits.specs.Numbers.{reply_of};
ghost use Rattle.viewing.specs.View.{figures, view_rule};

use columns::ENDED_LENGTH;
use limits::Refusal;

mod pairs;

// How many lines a file has at most, and the bytes of so many.
const MOST_LINES: usize = 10000;

const LONGEST: usize = MOST_LINES * ENDED_LENGTH;

// The report: how many pairs there are and, of what the first file's REFSYS is more than the second's in each, the sum, the smallest and the
// largest, in 0.1 ns.
#[derive(Clone, Copy)]
pub struct Figures {
    pub pairs: i64,
    pub sum: i64,
    pub smallest: i64,
    pub largest: i64,
}

// The report on two files in common view.
pub fn common_view(first: &[u8], second: &[u8]) -> Result<Figures, Refusal>
    ensures answer { reply_of (figures []) result ≡ view_rule first.now second.now }
{
    if (LONGEST < first.len()) | (LONGEST < second.len()) {
        return Err(Refusal::FileLength);
    }
    let (lines, others) = linefile::both_accepted(first, second)?;
    let figures = pairs::gather(lines, others);
    if figures.pairs < 1 {
        return Err(Refusal::NoPair);
    }
    Ok(figures)
}
