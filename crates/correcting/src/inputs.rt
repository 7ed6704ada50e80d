// The five columns of corrections that a track is given: whether the lists have their sizes, and whether every correction is inside its limit.
ghost use Rattle.std.specs.Prelude.{◌≡◌, not, ◌||◌, ◌*◌, ◌<◌, length};
ghost use Rattle.correcting.specs.Correct.{geometry_limit};
ghost use Rattle.correcting.specs.Given.{group_at};
ghost use Rattle.correcting.specs.Block.{group_beyond};
ghost use Rattle.limits.specs.Blocks.{blocks_fit_lem};
ghost use Rattle.limits.specs.Limits.{delay_limit};
ghost use Rattle.limits.specs.Lists.{miscounted, any_beyond_lem};

use super::{GEOMETRY_LEAST, GEOMETRY_LIMIT};
use limits::{blocks_fit, delay_beyond, outside};

// The five corrections of one block, in ps.
#[derive(Clone, Copy)]
pub struct Group {
    pub geometry: i64,
    pub relativity: i64,
    pub ionosphere: i64,
    pub troposphere: i64,
    pub clock: i64,
}

impl Group {
    // Whether the geometry or another correction is beyond its limit.
    pub(crate) fn beyond(self) -> bool
        ensures { result ≡ group_beyond self }
    {
        outside(GEOMETRY_LEAST, GEOMETRY_LIMIT, self.geometry)
            || delay_beyond(self.relativity)
            || delay_beyond(self.ionosphere)
            || delay_beyond(self.troposphere)
            || delay_beyond(self.clock)
    }
}

// The columns of the corrections, each with a number for each block.
// Kept: five lists beside each other, as document 01 gives Track columns, and refuses those of other lengths.
#[derive(Clone, Copy)]
pub struct Corrections<'a> {
    pub geometry: &'a [i64],
    pub relativity: &'a [i64],
    pub ionosphere: &'a [i64],
    pub troposphere: &'a [i64],
    pub clock: &'a [i64],
}

impl Corrections<'_> {
    // Whether the blocks are not from 4 to 52, the measurements not 15 a block, or another column not as long as the geometry's.
    pub(crate) fn sizes_wrong(self, measurements: &[i64]) -> bool
        ensures { result ≡ not (blocks_fit_lem (length self.entry.geometry.now))
            || (miscounted (15 * length self.entry.geometry.now) measurements.now
            || miscounted (length self.entry.geometry.now) self.entry.relativity.now
            || miscounted (length self.entry.geometry.now) self.entry.ionosphere.now
            || miscounted (length self.entry.geometry.now) self.entry.troposphere.now
            || miscounted (length self.entry.geometry.now) self.entry.clock.now) }
    {
        let n = self.geometry.len();
        if !blocks_fit(n) {
            return true;
        }
        (measurements.len() != 15 * n)
            | (self.relativity.len() != n)
            | (self.ionosphere.len() != n)
            | (self.troposphere.len() != n)
            | (self.clock.len() != n)
    }

    // The corrections of block j.
    pub(crate) fn group(self, j: usize) -> Group
        requires { (j < length self.geometry.now) × (j < length self.relativity.now) × (j < length self.ionosphere.now)
            × (j < length self.troposphere.now) × (j < length self.clock.now) }
        ensures { result ≡ group_at self.entry j }
    {
        Group {
            geometry: self.geometry[j],
            relativity: self.relativity[j],
            ionosphere: self.ionosphere[j],
            troposphere: self.troposphere[j],
            clock: self.clock[j],
        }
    }

    // Whether a geometry or any other correction is beyond its limit: one loop over the blocks, to the first such correction.
    pub(crate) fn beyond(self) -> bool
        requires { (length self.relativity.now ≡ length self.geometry.now)
            × (length self.ionosphere.now ≡ length self.geometry.now)
            × (length self.troposphere.now ≡ length self.geometry.now)
            × (length self.clock.now ≡ length self.geometry.now) }
        ensures { result ≡ any_beyond_lem geometry_limit self.entry.geometry.now
            || any_beyond_lem delay_limit self.entry.relativity.now || any_beyond_lem delay_limit self.entry.ionosphere.now
            || any_beyond_lem delay_limit self.entry.troposphere.now || any_beyond_lem delay_limit self.entry.clock.now }
    {
        for j in 0..self.geometry.len() {
            if self.group(j).beyond() {
                return true;
            }
        }
        false
    }
}
