// The corrected values of a track of 4 to 52 blocks ("Correcting" of document 01; document 02, Job 3), from what Track is given: the refusals 1 and 2
// of its lists and delays, the smoothed value of each block, and A, B, C and D.
// Lists of any length and numbers of any size are taken, and nothing traps.
// What is given is in whole picoseconds; smoothed and corrected values are in tenths of one (document 02, Job 8).

#![tactic(auto)]

mod correction;
mod inputs;
mod single;

ghost use Rattle.std.specs.Prelude.{◌≡◌};
ghost use Rattle.correcting.specs.Correct.{value_a, value_b, value_c, value_d};
ghost use Rattle.correcting.specs.Given.{given_of};
ghost use Rattle.correcting.specs.Answer.{correct_reply, correct_rule, corrected_blocks, filled};

use correction::correct_blocks;
pub use correction::{Rows, Values};
pub use inputs::{Corrections, Group};
use limits::{Delays, Refusal, delays_beyond};
pub use single::correct_block;

// The limit of a geometry, in ps, and its negative.
pub const GEOMETRY_LIMIT: i64 = 200_000_000_000;

pub const GEOMETRY_LEAST: i64 = -GEOMETRY_LIMIT;

// What a track is refused for, and how many measurements the limit test has read.
#[derive(Clone, Copy)]
pub struct Stopped {
    pub refusal: Refusal,
    pub read: usize,
}

impl From<Stopped> for Refusal {
    ghost from_gives = { λ stopped refusal. refusal ≡ stopped.refusal };

    fn from(stopped: Stopped) -> Refusal {
        stopped.refusal
    }
}

// The corrected values of a track of n blocks, n from 4 to 52: of 15n one-second measurements, the delays, and five columns of n corrections. A, B, C
// and D of document 01 are put into the first n places of the four rows that are lent; the other places keep what they hold. Where the track is
// refused, the rows have the values of the blocks before the first measurement outside, or of none. It answers how many measurements are read.
pub fn correct(
    measurements: &[i64],
    delays: Delays,
    corrections: Corrections,
    rows: &mut Rows,
) -> Result<usize, Stopped>
    ensures answer { correct_reply result ≡ correct_rule (given_of measurements.now delays corrections.entry) }
    ensures a_after { rows.new.a ≡ filled (corrected_blocks (given_of measurements.now delays corrections.entry))
        (value_a (given_of measurements.now delays corrections.entry)) rows.old.a }
    ensures b_after { rows.new.b ≡ filled (corrected_blocks (given_of measurements.now delays corrections.entry))
        (value_b (given_of measurements.now delays corrections.entry)) rows.old.b }
    ensures c_after { rows.new.c ≡ filled (corrected_blocks (given_of measurements.now delays corrections.entry))
        (value_c (given_of measurements.now delays corrections.entry)) rows.old.c }
    ensures d_after { rows.new.d ≡ filled (corrected_blocks (given_of measurements.now delays corrections.entry))
        (value_d (given_of measurements.now delays corrections.entry)) rows.old.d }
{
    if corrections.sizes_wrong(measurements) {
        return Err(Stopped {
            refusal: Refusal::Count,
            read: 0,
        });
    }
    if corrections.beyond() | delays_beyond(delays) {
        return Err(Stopped {
            refusal: Refusal::Limit,
            read: 0,
        });
    }
    correct_blocks(measurements, delays, corrections, rows)
}
