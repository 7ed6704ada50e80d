// The exact figures of a track: what the laboratory's numbers would be if nothing were rounded, and how far rounding can move them.
// Definitions and theorems; there is nothing to run here.
#![tactic(auto)]

// How many steps a picosecond has: smoothed and corrected values and residuals are whole steps (`steps` of specs/Corrected.antt).
pub const STEPS: i64 = 10;
