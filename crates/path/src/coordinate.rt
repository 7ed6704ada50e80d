// One coordinate: its tests, and the difference of two.
ghost use Rattle.std.specs.Prelude.{◌≡◌, true, false, ◌≤◌};
ghost use Rattle.path.specs.Coordinate.{whole, coordinate_beyond, millimetres};
ghost use Rattle.path.specs.Path.{difference};
ghost use Rattle.path.specs.Between.{difference_limit};

// Whether a float is a whole number. Beside ±2^52 a float has no digits behind the point: within that it is whole where it is the same after
// 2^52 was added and taken away, and taken away and added. Past that every finite float is.
// Kept: the sums, as trunc or fract in their place takes three times as long (27 ns for six coordinates, not 9).
pub fn is_whole(x: f64) -> bool
    ensures { result ≡ whole x }
{
    if (x >= -4503599627370496.0) & (x <= 4503599627370496.0) {
        let above = x + 4503599627370496.0;
        let below = x - 4503599627370496.0;
        return (above - 4503599627370496.0 == x) & (below + 4503599627370496.0 == x);
    }
    x.is_finite()
}

// Whether a float is outside ±5 × 10^10.
pub fn is_outside(x: f64) -> bool
    ensures { result ≡ coordinate_beyond x }
{
    !((x >= -50000000000.0) & (x <= 50000000000.0))
}

// The millimetres of a coordinate that is not refused. The cast is for numbers other than minus zero.
fn millimetres(x: f64) -> i64
    requires { (whole x ≡ true) × (coordinate_beyond x ≡ false) }
    ensures { result ≡ millimetres x }
{
    if 0.0 == x {
        return 0;
    }
    x as i64
}

// How far two coordinates that are not refused are apart: at most twice their limit.
pub fn apart(x: f64, y: f64) -> u64
    requires { (whole x ≡ true) × (coordinate_beyond x ≡ false) × (whole y ≡ true) × (coordinate_beyond y ≡ false) }
    ensures { (result ≡ difference x y) × (result ≤ difference_limit) }
{
    millimetres(x).abs_diff(millimetres(y))
}
