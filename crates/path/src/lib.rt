// Path (document 02, Job 11): the straight path between satellite and antenna in whole millimetres, from coordinates that are floats. A point goes by
// value. Whatever the six floats are, the answer is the length or a refusal: 23 for a coordinate that is not a whole number, then 24 for one
// outside ±5 × 10^10.
#![tactic(auto)]

ghost use Rattle.std.specs.Prelude.{◌≡◌, ◌||◌, ◌*◌, ◌≤◌};
ghost use Rattle.limits.specs.Numbers.{number_of, reply_of};
ghost use Rattle.path.specs.Path.{fractional, point_beyond, path_number, sum_of_squares_lem, length_of, plus_zero, path_rule};
ghost use Rattle.path.specs.Between.{difference_limit};

use coordinate::{apart, is_outside, is_whole};
use limits::Refusal;
use root::{estimate, product, root};

mod coordinate;
mod root;

// A point in millimetres.
#[derive(Clone, Copy)]
pub struct Point {
    pub x: f64,
    pub y: f64,
    pub z: f64,
}

// Whether some coordinate is not a whole number.
// Kept: a branch for each, for speed: joined by `||`, the compiler works out all three.
fn has_fraction(p: Point) -> bool
    ensures { result ≡ fractional p }
{
    if !is_whole(p.x) {
        return true;
    }
    if !is_whole(p.y) {
        return true;
    }
    !is_whole(p.z)
}

// Whether some coordinate of two points is not a whole number. The first such one ends the search.
fn have_fraction(satellite: Point, antenna: Point) -> bool
    ensures { result ≡ (fractional satellite || fractional antenna) }
{
    if has_fraction(satellite) {
        return true;
    }
    has_fraction(antenna)
}

// Whether some coordinate is outside ±5 × 10^10.
fn is_beyond(p: Point) -> bool
    ensures { result ≡ point_beyond p }
{
    is_outside(p.x) | is_outside(p.y) | is_outside(p.z)
}

// 23 over all six coordinates, then 24.
fn refusal(satellite: Point, antenna: Point) -> Result<(), Refusal>
    ensures { number_of result ≡ path_number satellite antenna }
{
    if have_fraction(satellite, antenna) {
        return Err(Refusal::NotWhole);
    }
    if is_beyond(satellite) | is_beyond(antenna) {
        return Err(Refusal::Coordinate);
    }
    Ok(())
}

// The sum of the squared differences of points that are not refused: at most three times (10^11)².
fn sum_of_squares(satellite: Point, antenna: Point) -> u128
    requires { path_number satellite antenna ≡ 0 }
    ensures { (result ≡ sum_of_squares_lem satellite antenna) × (result ≤ 3 * (difference_limit * difference_limit)) }
{
    let dx = apart(satellite.x, antenna.x);
    let dy = apart(satellite.y, antenna.y);
    let dz = apart(satellite.z, antenna.z);
    product(dx, dx) + product(dy, dy) + product(dz, dz)
}

// The length between points that are not refused.
fn length(satellite: Point, antenna: Point) -> f64
    requires { path_number satellite antenna ≡ 0 }
    ensures { result ≡ length_of satellite antenna }
{
    let near = estimate(
        satellite.x - antenna.x,
        satellite.y - antenna.y,
        satellite.z - antenna.z,
    );
    root(sum_of_squares(satellite, antenna), near) as f64
}

// The length of the straight path between satellite and antenna, or the first refusal.
pub fn path(satellite: Point, antenna: Point) -> Result<f64, Refusal>
    ensures answer { reply_of plus_zero result ≡ path_rule satellite antenna }
{
    refusal(satellite, antenna)?;
    Ok(length(satellite, antenna))
}
