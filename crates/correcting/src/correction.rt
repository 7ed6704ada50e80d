// The smoothed and the corrected values of a track, in tenths of a picosecond.
ghost use Rattle.std.specs.Prelude.{◌≡◌, false, ◌<◌, ◌*◌, set};
ghost use Rattle.series.specs.Fit.{value_limit};
ghost use Rattle.whole.specs.Words.{Within};
ghost use Rattle.limits.specs.Limits.{delay_limit};
ghost use Rattle.correcting.specs.Correct.{geometry_limit, value_a, value_b, value_c, value_d, wrong_sizes};
ghost use Rattle.correcting.specs.Given.{given_of};
ghost use Rattle.correcting.specs.Block.{values_of};
ghost use Rattle.correcting.specs.Answer.{correct_reply, others_beyond, filled, whole_blocks, measurements_rule};

use super::Stopped;
use super::inputs::{Corrections, Group};
use exact::STEPS;
use limits::{Delays, MEASUREMENT_LEAST, MEASUREMENT_LIMIT, Refusal, scan};
use series::smooth;

// The corrected values of one block.
#[derive(Clone, Copy)]
pub struct Values {
    pub a: i64,
    pub b: i64,
    pub c: i64,
    pub d: i64,
}

// The four rows of corrected values, a place for each block.
// Kept: four arrays beside each other, as Fit takes each row as a slice.
#[derive(Clone, Copy)]
pub struct Rows {
    pub a: [i64; 52],
    pub b: [i64; 52],
    pub c: [i64; 52],
    pub d: [i64; 52],
}

impl Rows {
    // Puts a block's values into place j of each row, where there is such a place.
    pub fn put(&mut self, j: usize, values: Values)
        ensures a_after { self.new.a ≡ set self.old.a j values.a }
        ensures b_after { self.new.b ≡ set self.old.b j values.b }
        ensures c_after { self.new.c ≡ set self.old.c j values.c }
        ensures d_after { self.new.d ≡ set self.old.d j values.d }
    {
        if j < 52 {
            self.a[j] = values.a;
            self.b[j] = values.b;
            self.c[j] = values.c;
            self.d[j] = values.d;
        }
    }
}

// A, B, C and D of document 01 at one block: smoothed in tenths, the corrections in picoseconds.
pub fn corrected(smoothed: i64, delays: Delays, group: Group) -> Values
    requires smoothed_and_delays { Within value_limit smoothed × Within delay_limit delays.int × Within delay_limit delays.cab
        × Within delay_limit delays.refdly × Within delay_limit delays.gd }
    requires corrections { Within geometry_limit group.geometry × Within delay_limit group.relativity
        × Within delay_limit group.ionosphere × Within delay_limit group.troposphere × Within delay_limit group.clock }
    ensures { result ≡ values_of smoothed delays group }
{
    let off = delays.int + delays.cab - delays.refdly + delays.gd + group.geometry
        - group.relativity
        + group.ionosphere
        + group.troposphere;
    let a = smoothed - STEPS * off;
    Values {
        a,
        b: a + STEPS * group.clock,
        c: STEPS * group.troposphere,
        d: STEPS * group.ionosphere,
    }
}

// The corrected values of the blocks, each put into its place of the four rows that are lent, block by block up to and without the first that
// has a measurement beyond its limit: 2 where there is one. The columns and the delays are inside their limits. It counts the measurements
// that its limit test reads.
// Kept: beside smooth_blocks of `fit`, which puts smoothed values alone: clauses a_after to d_after of `correct` fix the rows on a refusal too.
pub fn correct_blocks(
    measurements: &[i64],
    delays: Delays,
    corrections: Corrections,
    rows: &mut Rows,
) -> Result<usize, Stopped>
    requires sizes_right { wrong_sizes (given_of measurements.now delays corrections) ≡ false }
    requires others_inside { others_beyond (given_of measurements.now delays corrections) ≡ false }
    ensures answer { correct_reply result ≡ measurements_rule measurements.now }
    ensures a_after { rows.new.a ≡ filled (whole_blocks measurements.now)
        (value_a (given_of measurements.now delays corrections.entry)) rows.old.a }
    ensures b_after { rows.new.b ≡ filled (whole_blocks measurements.now)
        (value_b (given_of measurements.now delays corrections.entry)) rows.old.b }
    ensures c_after { rows.new.c ≡ filled (whole_blocks measurements.now)
        (value_c (given_of measurements.now delays corrections.entry)) rows.old.c }
    ensures d_after { rows.new.d ≡ filled (whole_blocks measurements.now)
        (value_d (given_of measurements.now delays corrections.entry)) rows.old.d }
{
    let mut read = 0;
    for (j, block) in measurements.chunks_exact(15).enumerate() {
        match scan(block, MEASUREMENT_LEAST, MEASUREMENT_LIMIT) {
            Ok(seen) => read += seen,
            Err(seen) => {
                return Err(Stopped {
                    refusal: Refusal::Limit,
                    read: read + seen,
                });
            }
        }
        // The scan has found all fifteen inside, so Smooth refuses none.
        let smoothed = smooth(block).unwrap();
        rows.put(j, corrected(smoothed, delays, corrections.group(j)));
    }
    Ok(read)
}
