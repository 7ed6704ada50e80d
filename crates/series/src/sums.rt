// Lists of values: the weighted sum of a block, and the values of a track with their line, their residuals and DSG.
ghost use Rattle.std.specs.Prelude.{◌≡◌, false, ◌*◌, ◌-◌, ◌^◌, ◌<◌, ◌≤◌, pos, nat_abs, ◌*ℤ◌, length, IfOk, MatchResult};
ghost use Rattle.whole.specs.Sum.{sum};
ghost use Rattle.whole.specs.Nearest.{nearest};
ghost use Rattle.whole.specs.Words.{Within};
ghost use Rattle.whole.specs.Table.{at};
ghost use Rattle.exact.specs.Corrected.{steps};
ghost use Rattle.exact.specs.Weights.{weights, place};
ghost use Rattle.limits.specs.Refusal.{◌when◌};
ghost use Rattle.limits.specs.Numbers.{paper_number, number_of};
ghost use Rattle.limits.specs.Limits.{measurement_limit};
ghost use Rattle.limits.specs.Lists.{any_beyond_lem};
ghost use Rattle.series.specs.Fit.{total, moment, midpoint, slope, value_limit, series_number};
ghost use Rattle.series.specs.Scatter.{residual, squares, threshold, dsg, squares_cap};

use super::number::{PS, UNIT, nearest};
use super::{VALUE_LEAST, VALUE_LIMIT};
use limits::{Refusal, blocks_fit, outside};

// The weights of the parabola's value at the middle of fifteen measurements, over 1105.
const WEIGHTS: [i64; 15] = [
    -78, -13, 42, 87, 122, 147, 162, 167, 162, 147, 122, 87, 42, -13, -78,
];

// What the sum of a full track's 52 values is divided by, and the n (n² - 1) of them: a quotient by a constant costs less.
const FULL_UNIT: u32 = 52 * UNIT;

const FULL_SPAN: u32 = 140556;

// The unit of DSG in steps, and half of it.
const WHOLE: u64 = UNIT as u64;

const HALF: u64 = WHOLE / 2;

// The least deviation in steps that is above a DSG of 9999.
const ROOT: u64 = 10000 * WHOLE - HALF;

// A sum of n squares from n times this up has a DSG above 9999 (`squares_cap`).
const CAP: u64 = ROOT * ROOT;

// The square of a residual above this many tenths is more than that for every n.
const FAR: u64 = 100_000_000;

// The sum of fifteen measurements, each times its weight.
pub fn weighted(measurements: &[i64; 15]) -> i64
    requires { any_beyond_lem measurement_limit measurements.now ≡ false }
    ensures { result ≡ sum 15 (λ i. at weights i *ℤ at measurements.now i) }
{
    let mut sum: i64 = 0;
    for (weight, measurement) in WEIGHTS.iter().zip(measurements) {
        sum += weight * measurement;
    }
    sum
}

// 4 to 52 values in tenths, none beyond its limit, with S and T of document 01: their sum, and the sum of each times its place.
#[derive(Clone, Copy)]
pub struct Series<'a> {
    values: &'a [i64],
    s: i64,
    t: i64,
    ghost count: { (4 ≤ length values.now) × (length values.now ≤ 52) },
    ghost inside: { any_beyond_lem value_limit values.now ≡ false },
    ghost sums: { (s ≡ total (length values.now) (at values.now)) × (t ≡ moment (length values.now) (at values.now)) },
}

impl<'a> Series<'a> {
    // Of a list that Fit and Scatter don't refuse.
    pub fn of(values: &'a [i64]) -> Result<Series<'a>, Refusal>
        ensures number { number_of result ≡ series_number values.now }
        ensures values { IfOk result (λ series. series.values.now ≡ values.now) }
    {
        if !blocks_fit(values.len()) {
            return Err(Refusal::Count);
        }
        // Kept: a full track has a call of its own, for speed: the compiler knows its length then (docs/DECISIONS.md, 59).
        match values.as_array::<52>() {
            Some(full) => Self::summed(full),
            None => Self::summed(values),
        }
    }

    // Of as many values as are allowed, up to the first that is beyond its limit. T comes from the sums on the way, without a product for each value.
    fn summed(values: &'a [i64]) -> Result<Series<'a>, Refusal>
        requires { (4 ≤ length values.now) × (length values.now ≤ 52) }
        ensures number { number_of result ≡ 2 when any_beyond_lem value_limit values.now }
        ensures values { IfOk result (λ series. series.values.now ≡ values.now) }
    {
        let mut s: i64 = 0;
        let mut sums: i64 = 0;
        for &value in values {
            if outside(VALUE_LEAST, VALUE_LIMIT, value) {
                return Err(Refusal::Limit);
            }
            sums += s;
            s += value;
        }
        let t = (values.len() - 1) as i64 * s - 2 * sums;
        Ok(Series { values, s, t })
    }

    // The midpoint in 0.1 ns.
    // Kept: a branch for a full track here and in over_span, for speed: a quotient by a constant costs less.
    pub fn midpoint(&self) -> i64
        ensures { result ≡ midpoint steps (length self.now.values.now) (at self.now.values.now) }
    {
        let n = self.values.len();
        if n == 52 {
            return nearest(self.s, FULL_UNIT);
        }
        nearest(self.s, UNIT * n as u32)
    }

    // The slope in 0.1 ps/s.
    pub fn slope(&self) -> i64
        ensures { result ≡ slope steps (length self.now.values.now) (at self.now.values.now) }
    {
        self.over_span(4 * self.t, PS)
    }

    // The nearest whole number to numerator / (s n (n² - 1)), for values in steps of which a picosecond has s.
    fn over_span(&self, numerator: i64, s: u32) -> i64
        requires { Within (2 ^ 63 - 2 ^ 31) numerator × (0 < s) × (s ≤ steps) }
        ensures { result ≡ nearest numerator (s * (length self.now.values.now * (length self.now.values.now * length self.now.values.now - 1))) }
    {
        let n = self.values.len();
        if n == 52 {
            return nearest(numerator, s * FULL_SPAN);
        }
        nearest(numerator, s * (n * (n * n - 1)) as u32)
    }

    // 2j - (n - 1): how far value j of n lies from their mean date, in half blocks.
    fn place(&self, j: usize) -> i64
        requires { j < length self.now.values.now }
        ensures { result ≡ place (length self.now.values.now) j }
    {
        2 * (j as i64) - (self.values.len() - 1) as i64
    }

    // The residual of value j. The value is taken out of the fraction: with it the numerator could be above 2^63.
    fn residual(&self, j: usize) -> i64
        requires { j < length self.now.values.now }
        ensures { result ≡ residual (length self.now.values.now) (at self.now.values.now) j }
    {
        let n = self.values.len();
        let m = n * n - 1;
        let slant = 3 * (self.place(j) * self.t);
        self.values[j] + self.over_span(0 - m as i64 * self.s - slant, 1)
    }

    // The sum of the squared residuals, refused from n times CAP up: a square may not fit 64 bits.
    pub fn squares(&self) -> Result<u64, Refusal>
        ensures { MatchResult result
            (λ q. (pos q ≡ squares (length self.now.values.now) (at self.now.values.now)) × (q < squares_cap * length self.now.values.now))
            (λ refusal. (paper_number refusal ≡ 6)
            × (squares_cap * length self.now.values.now ≤ nat_abs (squares (length self.now.values.now) (at self.now.values.now)))) }
    {
        let n = self.values.len();
        let mut q: u64 = 0;
        for j in 0..n {
            let r = self.residual(j).unsigned_abs();
            if FAR < r {
                return Err(Refusal::Scatter);
            }
            q += r * r;
        }
        if CAP * n as u64 <= q {
            return Err(Refusal::Scatter);
        }
        Ok(q)
    }

    // The least sum of squares that a DSG of d has.
    fn threshold(&self, d: u64) -> u64
        requires { (0 < d) × (d ≤ 10000) }
        ensures { pos result ≡ threshold steps (length self.now.values.now) d }
    {
        let e = WHOLE * d - HALF;
        self.values.len() as u64 * (e * e)
    }

    // DSG of a sum of squares below n times CAP, by halving between 0 and 10000.
    // Kept: a loop, as the library searches by halving in slices, and not over numbers with a test.
    pub fn dsg(&self, q: u64) -> u64
        requires { q < squares_cap * length self.now.values.now }
        ensures { result ≡ dsg steps (length self.now.values.now) (pos q) }
    {
        let mut low: u64 = 0;
        let mut high: u64 = 10000;
        while low + 1 < high {
            let middle = (low + high) / 2;
            if self.threshold(middle) <= q {
                low = middle;
            } else {
                high = middle;
            }
        }
        low
    }
}
