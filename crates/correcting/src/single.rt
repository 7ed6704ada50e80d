// One block of a track: its corrected values, or the 2 of a number that is outside its limits.
ghost use Rattle.std.specs.Prelude.{◌≡◌};
ghost use Rattle.limits.specs.Numbers.{reply_of};
ghost use Rattle.correcting.specs.Block.{no_values, block_values_rule};

use super::correction::{Values, corrected};
use super::inputs::Group;
use limits::{Delays, Refusal, delays_beyond, outside};
use series::{VALUE_LEAST, VALUE_LIMIT};

// A, B, C and D of a block, in tenths, from its smoothed value in tenths and its corrections in picoseconds.
pub fn correct_block(smoothed: i64, delays: Delays, group: Group) -> Result<Values, Refusal>
    ensures { reply_of no_values result ≡ block_values_rule smoothed delays group }
{
    if group.beyond() | outside(VALUE_LEAST, VALUE_LIMIT, smoothed) | delays_beyond(delays) {
        return Err(Refusal::Limit);
    }
    let values = corrected(smoothed, delays, group);
    Ok(values)
}
