// The ten numbers of a track and their limits, written once for Track and for Line, the limits of what Track is given, of which stores keep the
// delays, the limit test on a list of values, and the refusals with the paper's numbers.
#![tactic(auto)]

ghost use Rattle.std.specs.Prelude.{◌≡◌};
ghost use Rattle.limits.specs.Limits.{outside, beyond, delay_limit, delays_beyond_lem, limits_number, dsg_number};
ghost use Rattle.limits.specs.Blocks.{blocks_fit_lem};
ghost use Rattle.limits.specs.Lists.{any_outside_lem};
ghost use Rattle.limits.specs.Scan.{scan_rule};
ghost use Rattle.limits.specs.Numbers.{number_of};

mod refusal;

pub use refusal::{Refusal, reply_number};

// The limits of what is given, in ps, each with its negative: of a measurement, and of a delay and every correction but the geometry.
pub const MEASUREMENT_LIMIT: i64 = 1_000_000_000_000;

pub const MEASUREMENT_LEAST: i64 = -MEASUREMENT_LIMIT;

pub const DELAY_LIMIT: i64 = 10_000_000_000;

pub const DELAY_LEAST: i64 = -DELAY_LIMIT;

// The ten numbers of a track, in their fixed order.
#[derive(Clone, Copy)]
pub struct Numbers {
    pub refsv: i64,
    pub srsv: i64,
    pub refsys: i64,
    pub srsys: i64,
    pub mdtr: i64,
    pub smdt: i64,
    pub mdio: i64,
    pub smdi: i64,
    pub dsg: i64,
    pub trkl: i64,
}

// Whether z lies outside low to high.
pub fn outside(low: i64, high: i64, z: i64) -> bool
    ensures { result ≡ outside low high z }
{
    (z < low) | (high < z)
}

// Whether a delay is beyond its limit.
pub fn delay_beyond(delay: i64) -> bool
    ensures { result ≡ beyond delay_limit delay }
{
    outside(DELAY_LEAST, DELAY_LIMIT, delay)
}

// The delays of receiver, antenna cable and reference cable, and the broadcast group delay, in ps.
#[derive(Clone, Copy)]
pub struct Delays {
    pub int: i64,
    pub cab: i64,
    pub refdly: i64,
    pub gd: i64,
}

// Whether one of the four is beyond its limit.
pub fn delays_beyond(delays: Delays) -> bool
    ensures { result ≡ delays_beyond_lem delays.int delays.cab delays.refdly delays.gd }
{
    delay_beyond(delays.int)
        | delay_beyond(delays.cab)
        | delay_beyond(delays.refdly)
        | delay_beyond(delays.gd)
}

// Whether a track may have n blocks.
pub fn blocks_fit(n: usize) -> bool
    ensures { result ≡ blocks_fit_lem n }
{
    (4 <= n) & (n <= 52)
}

// The limit test on a list: it reads up to and with the first value outside low to high, or all, and counts what it reads. `Err` where one is outside.
// Kept: a loop by hand, as the count of what is read is the place of the next value too.
pub fn scan(values: &[i64], low: i64, high: i64) -> Result<usize, usize>
    ensures { result ≡ scan_rule low high values.now }
{
    let mut read = 0;
    while read < values.len() {
        let at = read;
        read += 1;
        if outside(low, high, values[at]) {
            return Err(read);
        }
    }
    Ok(read)
}

// Whether some value is outside low to high.
pub fn any_outside(values: &[i64], low: i64, high: i64) -> bool
    ensures { result ≡ any_outside_lem low high values.now }
{
    scan(values, low, high).is_err()
}

// 3, 4 or 5 where one of the eight fitted numbers is outside its limits.
pub fn limits(numbers: Numbers) -> Result<(), Refusal>
    ensures { number_of result ≡ limits_number numbers }
{
    if outside(-9999999999, 9999999999, numbers.refsv)
        | outside(-9999999999, 9999999999, numbers.refsys)
    {
        return Err(Refusal::Midpoint);
    }
    if outside(-99999, 99999, numbers.srsv)
        | outside(-99999, 99999, numbers.srsys)
        | outside(-999, 999, numbers.smdt)
        | outside(-999, 999, numbers.smdi)
    {
        return Err(Refusal::Slope);
    }
    if outside(0, 9999, numbers.mdtr) | outside(0, 9999, numbers.mdio) {
        return Err(Refusal::Delay);
    }
    Ok(())
}

// 6 where a DSG is outside its limits.
pub fn dsg(dsg: i64) -> Result<(), Refusal>
    ensures { number_of result ≡ dsg_number dsg }
{
    if outside(0, 9999, dsg) {
        return Err(Refusal::Scatter);
    }
    Ok(())
}
