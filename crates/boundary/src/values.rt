// Rows of numbers that a C caller lends.
ghost use Rattle.std.specs.Prelude.{◌≡◌, ltb, length};
ghost use Rattle.limits.specs.Refusal.{◌when◌};
ghost use Rattle.limits.specs.Numbers.{number_of};
ghost use Rattle.boundary.specs.Values.{row_after, values_of};

use limits::Refusal;
use reader::Reading;

// The values of a line in the order in which C finds them.
pub fn values(reading: Reading) -> [i64; 23]
    ensures { result ≡ values_of reading.labels reading.numbers }
{
    let labels = reading.labels;
    let numbers = reading.numbers;
    [
        i64::from(labels.constellation),
        i64::from(labels.satellite),
        i64::from(labels.cl),
        i64::from(labels.fr),
        i64::from(labels.hc),
        i64::from(labels.frc1),
        i64::from(labels.frc2),
        i64::from(labels.frc3),
        i64::from(labels.mjd),
        i64::from(labels.start),
        i64::from(labels.elv),
        i64::from(labels.azth),
        i64::from(labels.ioe),
        numbers.refsv,
        numbers.srsv,
        numbers.refsys,
        numbers.srsys,
        numbers.mdtr,
        numbers.smdt,
        numbers.mdio,
        numbers.smdi,
        numbers.dsg,
        numbers.trkl,
    ]
}

// Puts a row into the first of the lent places, or refuses with 9 where they are fewer.
pub fn put(row: &[i64], lent: &mut [i64]) -> Result<(), Refusal>
    ensures answer { number_of result ≡ 9 when ltb (length lent.old) (length row.now) }
    ensures written { lent.new ≡ row_after (number_of result) row.now lent.old }
{
    if lent.len() < row.len() {
        return Err(Refusal::Lent);
    }
    lent::put(row, lent, 0);
    Ok(())
}
