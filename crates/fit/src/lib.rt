// From one-second measurements to the ten numbers of a track of 4 to 52 blocks: Track of document 01 and document 02, Job 3,
// and beside it Smooth, Fit and Scatter, of which it is made and which are those of crate series.
// Each operation takes lists of any length and numbers of any size and never traps: what it can't use it refuses with
// the first refusal, in the order of document 01, "Each operation and its refusals, in order".
// What is given is in whole picoseconds; smoothed and corrected values are in tenths of one (document 02, Job 8).

#![tactic(auto)]

mod packed;
mod results;

ghost use Rattle.std.specs.Prelude.{◌≡◌, IfOk, length};
ghost use Rattle.exact.specs.Accurate.{AccurateTrack};
ghost use Rattle.exact.specs.Corrected.{steps};
ghost use Rattle.correcting.specs.Given.{given_of};
ghost use Rattle.fit.specs.Track.{tracked_of, track_rule};

pub use correcting::Corrections;
use correcting::{Rows, correct};
use limits::Refusal;
pub use limits::{Delays, Numbers};
pub use packed::track_packed;
use results::ten_numbers;
pub use series::{Fitted, fit, scatter, smooth};

// How many of the 52 places are in use, a track's corrected values of each kind, A, B, C and D of document 01 in tenths, with 0
// in the other places, and its ten numbers.
// Kept: four arrays of 52 beside the ten numbers, the form that document 01 names for the record of a track.
#[derive(Clone, Copy)]
pub struct TrackRecord {
    pub blocks: usize,
    pub a: [i64; 52],
    pub b: [i64; 52],
    pub c: [i64; 52],
    pub d: [i64; 52],
    pub numbers: Numbers,
}

// A track of n blocks, n from 4 to 52: 15n one-second measurements, the delays, and five columns of n corrections.
pub fn track(
    measurements: &[i64],
    delays: Delays,
    corrections: Corrections,
) -> Result<TrackRecord, Refusal>
    ensures answer { tracked_of result ≡ track_rule (given_of measurements.now delays corrections.entry) }
    ensures accurate { IfOk result (λ t. AccurateTrack steps (length corrections.entry.geometry.now)
        (given_of measurements.now delays corrections.entry) t.numbers) }
{
    let mut rows = Rows {
        a: [0; 52],
        b: [0; 52],
        c: [0; 52],
        d: [0; 52],
    };
    correct(measurements, delays, corrections, &mut rows)?;
    let blocks = corrections.geometry.len();
    let numbers = ten_numbers(blocks, &rows)?;
    Ok(TrackRecord {
        blocks,
        a: rows.a,
        b: rows.b,
        c: rows.c,
        d: rows.d,
        numbers,
    })
}
