// The columns of a line: labels and the ten numbers as the 113 characters of a data line. Whether they may stand in a line is not asked
// here; a number that its column cannot hold loses digits.
#![tactic(auto)]

ghost use Rattle.std.specs.Prelude.{◌≡◌};
ghost use Rattle.lent.specs.Placed.{placed_within};
ghost use Rattle.columns.specs.Text.{line_text};

use labels::{Labels, Numbers};

mod put;

// A line's length in bytes.
pub const LINE_LENGTH: usize = 113;

// The same with carriage return and line feed.
pub const ENDED_LENGTH: usize = LINE_LENGTH + 2;

// Puts the line into the first 113 of the lent bytes, where there are as many. The columns are written where they stay: made apart and then
// copied, a line takes longer by a sixth.
pub fn write(labels: Labels, numbers: Numbers, lent: &mut [u8])
    ensures { lent.new ≡ placed_within lent.old 0 (line_text labels numbers) }
{
    if let Some(line) = lent.first_chunk_mut() {
        put::put_line(line, labels, numbers);
    }
}
