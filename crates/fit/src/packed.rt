// Track of numbers that are still packed in bytes. Each is decoded, tested and used on the way through them, the measurements first, so that no
// list of them is kept and the bytes are read in their order.
ghost use Rattle.std.specs.Prelude.{◌≡◌, [], false, ◌*◌, ◌/◌, ◌≤◌, pos, ◌*ℤ◌, length, IfOk, OnOk};
ghost use Rattle.limits.specs.Limits.{no_numbers};
ghost use Rattle.limits.specs.Lists.{any_beyond_lem};
ghost use Rattle.limits.specs.Refusal.{◌when◌};
ghost use Rattle.limits.specs.Numbers.{number_of, reply_of};
ghost use Rattle.series.specs.Fit.{value_limit};
ghost use Rattle.decode.specs.Number.{signed_at_lem, signeds_at};
ghost use Rattle.exact.specs.Accurate.{AccurateTrack};
ghost use Rattle.whole.specs.Table.{at};
ghost use Rattle.exact.specs.Corrected.{steps, to_a, to_b};
ghost use Rattle.correcting.specs.Answer.{correct_reply, filled, whole_blocks, measurements_rule, others_beyond};
ghost use Rattle.fit.specs.Found.{found_rule};
ghost use Rattle.fit.specs.Packed.{smoothed_of, grouped, packed};

use super::results::ten_numbers;
use super::{Numbers, smooth};
use correcting::{Group, Rows, Stopped, correct_block};
use decode::{fill, signed64};
use limits::{
    Delays, MEASUREMENT_LEAST, MEASUREMENT_LIMIT, Refusal, blocks_fit, delays_beyond, scan,
};

// The fifteen measurements of one block.
fn fifteen(part: &[u8]) -> [i64; 15]
    ensures { result ≡ signeds_at part.now 0 8 15 }
{
    let mut numbers = [0; 15];
    fill(part, 0, 8, &mut numbers);
    numbers
}

// The smoothed value of each of n blocks, put into its place of the row that is lent, block by block up to and without the first that has a
// measurement beyond its limit: 2 where there is one. It counts the measurements that its limit test reads.
// Kept: n beside the row, as it counts the blocks of the bytes too.
fn smooth_blocks(measurements: &[u8], n: usize, row: &mut [i64; 52]) -> Result<usize, Stopped>
    requires { (n ≤ 52) × (120 * n ≤ length measurements.now) }
    ensures answer { correct_reply result ≡ measurements_rule (signeds_at measurements.now 0 8 (15 * n)) }
    ensures row_after { row.new ≡ filled (whole_blocks (signeds_at measurements.now 0 8 (15 * n)))
        (smoothed_of (signeds_at measurements.now 0 8 (15 * n))) row.old }
{
    let mut read = 0;
    for j in 0..n {
        let from = 120 * j;
        let numbers = fifteen(&measurements[from..from + 120]);
        match scan(&numbers, MEASUREMENT_LEAST, MEASUREMENT_LIMIT) {
            Ok(seen) => read += seen,
            Err(seen) => {
                return Err(Stopped {
                    refusal: Refusal::Limit,
                    read: read + seen,
                });
            }
        }
        row[j] = smooth(&numbers).unwrap();
    }
    Ok(read)
}

// The five corrections of one block.
fn group(part: &[u8]) -> Group
    ensures { result ≡ record {
      geometry = signed_at_lem part.now 0;
      relativity = signed_at_lem part.now 8;
      ionosphere = signed_at_lem part.now 16;
      troposphere = signed_at_lem part.now 24;
      clock = signed_at_lem part.now 32;
    } }
{
    Group {
        geometry: signed64(part, 0),
        relativity: signed64(part, 8),
        ionosphere: signed64(part, 16),
        troposphere: signed64(part, 24),
        clock: signed64(part, 32),
    }
}

// A, B, C and D of n blocks, each put into its place of the rows that are lent, from their smoothed values and their groups of five corrections: 2 where a
// delay or a correction is outside its limits. The smoothed values are inside Fit's limit.
fn correct_groups(
    corrections: &[u8],
    n: usize,
    smoothed: &[i64; 52],
    delays: Delays,
    rows: &mut Rows,
) -> Result<(), Refusal>
    requires { (n ≤ 52) × (40 * n ≤ length corrections.now) × (any_beyond_lem value_limit smoothed.now ≡ false) }
    ensures answer { number_of result ≡ 2 when others_beyond (grouped n [] delays corrections.now) }
    ensures rows_after { OnOk result ((rows.new.a ≡ filled n (λ j. to_a (grouped n [] delays corrections.now) (pos steps) j
        (at smoothed.now j)) rows.old.a)
        × (rows.new.b ≡ filled n (λ j. to_b (grouped n [] delays corrections.now) (pos steps) j
        (at smoothed.now j)) rows.old.b)
        × (rows.new.c ≡ filled n (λ j. pos steps *ℤ at (signeds_at corrections.now 24 40 n) j) rows.old.c)
        × (rows.new.d ≡ filled n (λ j. pos steps *ℤ at (signeds_at corrections.now 16 40 n) j) rows.old.d)) }
{
    if delays_beyond(delays) {
        return Err(Refusal::Limit);
    }
    for j in 0..n {
        let from = 40 * j;
        let group = group(&corrections[from..from + 40]);
        rows.put(j, correct_block(smoothed[j], delays, group)?);
    }
    Ok(())
}

// Track of n blocks, n from 4 to 52, without its record: 15n measurements and n groups of five corrections, eight bytes a number, and the delays.
pub fn track_packed(
    measurements: &[u8],
    delays: Delays,
    corrections: &[u8],
) -> Result<Numbers, Refusal>
    ensures answer { reply_of no_numbers result ≡ found_rule (packed measurements.now delays corrections.now) }
    ensures accurate { IfOk result (λ numbers. AccurateTrack steps (length corrections.now / 40)
        (packed measurements.now delays corrections.now) numbers) }
{
    let n = corrections.len() / 40;
    if !blocks_fit(n) {
        return Err(Refusal::Count);
    }
    if measurements.len() / 8 != 15 * n {
        return Err(Refusal::Count);
    }
    let mut smoothed = [0; 52];
    smooth_blocks(measurements, n, &mut smoothed)?;
    let mut rows = Rows {
        a: [0; 52],
        b: [0; 52],
        c: [0; 52],
        d: [0; 52],
    };
    correct_groups(corrections, n, &smoothed, delays, &mut rows)?;
    ten_numbers(n, &rows)
}
