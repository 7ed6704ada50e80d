// The ten numbers of corrected values.
ghost use Rattle.std.specs.Prelude.{◌≡◌, false, ◌≤◌};
ghost use Rattle.limits.specs.Limits.{no_numbers};
ghost use Rattle.limits.specs.Lists.{any_beyond_lem};
ghost use Rattle.limits.specs.Numbers.{reply_of};
ghost use Rattle.series.specs.Fit.{value_limit};
ghost use Rattle.fit.specs.Track.{record_of};
ghost use Rattle.fit.specs.Found.{judged_rule};

use super::{Numbers, fit, scatter};
use correcting::Rows;
use limits::{Refusal, limits};

// The ten numbers of the first n places of four rows, or what they are refused for: 3 to 5 by the fitted numbers, then Scatter's 6. Every value is
// inside Fit's limit, as those of Track are (law corrected-within): so Fit refuses none of the rows.
pub fn ten_numbers(n: usize, rows: &Rows) -> Result<Numbers, Refusal>
    requires few_blocks { (4 ≤ n) × (n ≤ 52) }
    requires inside { (any_beyond_lem value_limit rows.now.a ≡ false) × (any_beyond_lem value_limit rows.now.b ≡ false)
        × (any_beyond_lem value_limit rows.now.c ≡ false) × (any_beyond_lem value_limit rows.now.d ≡ false) }
    ensures { reply_of no_numbers result ≡ judged_rule (record_of n rows.now.a rows.now.b rows.now.c rows.now.d) }
{
    let a = fit(&rows.a[..n])?;
    let b = fit(&rows.b[..n])?;
    let c = fit(&rows.c[..n])?;
    let d = fit(&rows.d[..n])?;
    let mut numbers = Numbers {
        refsv: a.midpoint,
        srsv: a.slope,
        refsys: b.midpoint,
        srsys: b.slope,
        mdtr: c.midpoint,
        smdt: c.slope,
        mdio: d.midpoint,
        smdi: d.slope,
        dsg: 0,
        trkl: (15 * n) as i64,
    };
    limits(numbers)?;
    numbers.dsg = scatter(&rows.b[..n])?;
    Ok(numbers)
}
