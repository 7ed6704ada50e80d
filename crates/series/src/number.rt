// The nearest whole number to a fraction.
ghost use Rattle.std.specs.Prelude.{◌≡◌, ◌-◌, ◌^◌, ◌<◌};
ghost use Rattle.std.specs.Int.Signed.{mag, shr_z};
ghost use Rattle.whole.specs.Nearest.{nearest};
ghost use Rattle.whole.specs.Words.{Within};

use exact::STEPS;

// The steps of a picosecond, and of 0.1 ns, the unit of a midpoint and of DSG.
pub const PS: u32 = STEPS as u32;

pub const UNIT: u32 = 100 * PS;

// How far v lies from 0, or where it is below 0 from -1.
fn folded(v: i64) -> u64
    ensures { result ≡ mag v }
{
    if v < 0 { (-1 - v) as u64 } else { v as u64 }
}

// The floor of x / d, where the language's quotient rounds toward 0. One quotient serves both signs.
// Kept: div_euclid branches on the sign, which can't be foretold of a residual: Scatter and Fit of a full track take a quarter longer with it.
fn floor(x: i64, d: u64) -> i64
    requires { 0 < d }
    ensures { result ≡ shr_z x d }
{
    let q = (folded(x) / d) as i64;
    if x < 0 { -1 - q } else { q }
}

// The nearest whole number to n / d, a tie going up. n is not doubled: half of d, rounded down, is added to it.
pub fn nearest(n: i64, d: u32) -> i64
    requires { Within (2 ^ 63 - 2 ^ 31) n × (0 < d) }
    ensures { result ≡ nearest n d }
{
    floor(n + (d / 2) as i64, d as u64)
}
