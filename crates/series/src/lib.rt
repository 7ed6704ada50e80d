// Smooth, Fit and Scatter of document 01, Fit and Scatter for 4 to 52 values (document 02, Job 3): the three operations on a
// list of values. Smooth takes picoseconds and gives tenths of a picosecond, which Fit and Scatter take (document 02, Job 8).
// Each takes a list of any length and numbers of any size and never traps: what it can't use it refuses with the first refusal
// in the order of document 01, "Each operation and its refusals, in order".

#![tactic(auto)]

mod number;
mod sums;

ghost use Rattle.std.specs.Prelude.{◌≡◌, pos};
ghost use Rattle.limits.specs.Numbers.{reply_of};
ghost use Rattle.series.specs.Answers.{fit_reply};
ghost use Rattle.series.specs.Smooth.{smooth_rule};
ghost use Rattle.series.specs.Fit.{fit_rule};
ghost use Rattle.series.specs.Scatter.{scatter_rule};

use exact::STEPS;
use limits::{MEASUREMENT_LEAST, MEASUREMENT_LIMIT, Refusal, any_outside};
use number::nearest;
use sums::{Series, weighted};

// The limit of a value, in steps, and its negative.
pub const VALUE_LIMIT: i64 = STEPS * 2_000_000_000_000;

pub const VALUE_LEAST: i64 = -VALUE_LIMIT;

// The line through a list of values: its value at the midpoint in 0.1 ns, and its slope in 0.1 ps/s.
#[derive(Clone, Copy)]
pub struct Fitted {
    pub midpoint: i64,
    pub slope: i64,
}

// The value at the middle of fifteen measurements of the parabola with the least sum of squared residuals, to the nearest tenth.
pub fn smooth(measurements: &[i64]) -> Result<i64, Refusal>
    ensures answer { reply_of (pos 0) result ≡ smooth_rule measurements.now }
{
    let Some(block) = measurements.as_array::<15>() else {
        return Err(Refusal::Count);
    };
    if any_outside(block, MEASUREMENT_LEAST, MEASUREMENT_LIMIT) {
        return Err(Refusal::Limit);
    }
    // Ten times the sum over 1105, each divided by 5.
    Ok(nearest(2 * weighted(block), 221))
}

// The line through 4 to 52 values in tenths with the least sum of squared residuals: its value at the midpoint, and its slope.
pub fn fit(values: &[i64]) -> Result<Fitted, Refusal>
    ensures answer { fit_reply result ≡ fit_rule values.now }
{
    let series = Series::of(values)?;
    Ok(Fitted {
        midpoint: series.midpoint(),
        slope: series.slope(),
    })
}

// DSG: the root mean square of the residuals of 4 to 52 values in tenths from their line.
pub fn scatter(values: &[i64]) -> Result<i64, Refusal>
    ensures answer { reply_of (pos 0) result ≡ scatter_rule values.now }
{
    let series = Series::of(values)?;
    let q = series.squares()?;
    Ok(series.dsg(q) as i64)
}
