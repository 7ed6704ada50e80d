// Lines ranked by one number, so that two of them are compared by one comparison.
ghost use Rattle.std.specs.Prelude.{◌≡◌};
ghost use Rattle.linefile.specs.Walk.{rank};

use crate::accepted_lines::EndedLine;
use fields::{byte_at, two_digits};

// The rank of a line by MJD, start, letter and satellite.
pub fn rank(line: &EndedLine) -> u64
    ensures { result ≡ rank line.now }
{
    let mjd = 1000 * two_digits(line, 7) + 10 * two_digits(line, 9) + byte_at(line, 11);
    let start = 3600 * two_digits(line, 13) + 60 * two_digits(line, 15) + two_digits(line, 17);
    let letter = byte_at(line, 0);
    let satellite = two_digits(line, 1);
    ((mjd * 4000000 + start) * 256 + letter) * 1000 + satellite
}
