// The root of a sum of squares: an iterated estimate in floats, then the exact floor in whole numbers. Of the estimate nothing is known:
// it only says where to look first.
ghost use Rattle.std.specs.Prelude.{◌≡◌, ◌*◌, ◌<◌};
ghost use Rattle.path.specs.Between.{factor_limit, Between};
ghost use Rattle.path.specs.Root.{root};

// The greatest root: one below 2^38.
const GREATEST: u64 = 274877906943;

// Bounds on a root: it is from low to high.
#[derive(Clone, Copy)]
pub struct Bounds {
    pub low: u64,
    pub high: u64,
}

// The product, which fits whatever the factors are.
pub fn product(a: u64, b: u64) -> u128
    ensures { result ≡ a * b }
{
    a as u128 * b as u128
}

// A first guess at the root of n, within 5%: half the exponent, by the bit pattern.
fn guess(n: f64) -> f64 {
    if n >= 0.0 {
        let half = f64::to_bits(n) / 2 + 0x1ff7_a3be_a91d_9b1b;
        if half < 0x7ff0_0000_0000_0000 {
            return f64::from_bits(half);
        }
    }
    n
}

// The nearest whole number to an estimate, 0 where there is none: beside 2^52 a float has no digits behind the point, and the last 52 bits of the sum
// are the number.
fn rounded(x: f64) -> u64 {
    let shifted = x + 4503599627370496.0;
    if shifted >= 4503599627370496.0 {
        return f64::to_bits(shifted) % 4503599627370496;
    }
    0
}

// An estimate of the length by Halley's rule: each turn takes an error of one part in k to one in 4k³. The 1 keeps the numbers away from 0, beside
// which floats are slow. Less 0.499 the nearest whole number is the floor, but for a length just below the next one.
pub fn estimate(dx: f64, dy: f64, dz: f64) -> u64 {
    let n = 1.0 + dx * dx + dy * dy + dz * dz;
    let mut length = guess(n);
    for _ in 0..2usize {
        let square = length * length;
        length = length * (square + 3.0 * n) / (3.0 * square + n);
    }
    rounded(length - 0.499)
}

// The bounds after p was tried. They ignore it where it can tell nothing.
fn probed(n: u128, b: Bounds, p: u64) -> Bounds
    requires { Between n b }
    ensures { Between n result }
{
    if p <= b.low || b.high < p {
        return b;
    }
    let below = p - 1;
    if product(p, p) <= n {
        Bounds { low: p, ..b }
    } else {
        Bounds { high: below, ..b }
    }
}

// The root between bounds, by halving. It is below 2^38.
// Kept: halving between the bounds, which a good estimate leaves closed: isqrt would begin anew, from 2^64.
fn halved(n: u128, b: Bounds) -> u64
    requires { Between n b }
    ensures { (result ≡ root n) × (result < factor_limit) }
{
    let Bounds { mut low, mut high } = b;
    while low < high {
        let below = (low + high) / 2;
        let middle = below + 1;
        if product(middle, middle) <= n {
            low = middle;
        } else {
            high = below;
        }
    }
    low
}

// The root of n. The estimate is tried first, then the number above the lower bound and the upper bound itself: with a good estimate nothing is left to
// halve.
pub fn root(n: u128, estimate: u64) -> u64
    requires { n < factor_limit * factor_limit }
    ensures { (result ≡ root n) × (result < factor_limit) }
{
    let all = Bounds {
        low: 0,
        high: GREATEST,
    };
    let tried = probed(n, all, estimate);
    let above = probed(n, tried, tried.low + 1);
    let last = probed(n, above, above.high);
    halved(n, last)
}
