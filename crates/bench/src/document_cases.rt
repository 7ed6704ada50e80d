// The cases of document 01, "What the technician tries", that are not marked P, and some refusals beside them. The starts are
// those of document 02, Job 2, the counts of values those of Job 3, and the values and answers those of Job 8: Smooth gives tenths,
// Fit and Scatter take them.
use crate::replies::Reply;
use crate::report::{FILL, Report};
use line::{Labels, Numbers};
use std::array;
use std::io::Write;

// The largest measurement that Smooth takes.
const MOST: i64 = 1_000_000_000_000;

// Kept: a function for each operation, as each shows its values in its own way.
fn try_smooth<W: Write + Drop>(
    report: &mut Report<W>,
    case: &str,
    measurements: &[i64],
    should: Reply,
) {
    let gave = Reply::of(fit::smooth(measurements), |value| Reply::Value(value));
    report.compare("smooth", case, gave, should);
}

pub fn smooth_cases<W: Write + Drop>(report: &mut Report<W>) {
    let mut values = [MOST; 15];
    try_smooth(report, "10^12 everywhere", &values, Reply::Value(10 * MOST));
    values[14] = MOST + 1;
    try_smooth(report, "last 10^12 + 1", &values, Reply::Refused(2));
    try_smooth(report, "14 measurements", &[0; 14], Reply::Refused(1));
    try_smooth(report, "16 measurements", &[0; 16], Reply::Refused(1));
}

fn try_fit<W: Write + Drop>(report: &mut Report<W>, case: &str, values: &[i64], should: Reply) {
    let gave = Reply::of(
        fit::fit(values),
        |line| Reply::Line {
            midpoint: line.midpoint,
            slope: line.slope,
        },
    );
    report.compare("fit", case, gave, should);
}

pub fn fit_cases<W: Write + Drop>(report: &mut Report<W>) {
    let mut values = [0i64; 52];
    let level = Reply::Line {
        midpoint: 0,
        slope: 0,
    };
    let below = Reply::Line {
        midpoint: -1,
        slope: 0,
    };
    try_fit(report, "all -510", &[-510; 52], below);
    values[51] = 3440;
    try_fit(report, "last value 3440", &values, level);
    values[51] = 20 * MOST + 1;
    try_fit(report, "last 2 x 10^13 + 1", &values, Reply::Refused(2));
    try_fit(report, "3 values", &[0; 3], Reply::Refused(1));
    try_fit(report, "53 values", &[0; 53], Reply::Refused(1));
}

fn try_scatter<W: Write + Drop>(report: &mut Report<W>, case: &str, values: &[i64], should: Reply) {
    let gave = Reply::of(fit::scatter(values), |dsg| Reply::Sigma(dsg));
    report.compare("scatter", case, gave, should);
}

// The pattern a, b, b, a, thirteen times.
fn pattern(a: i64, b: i64) -> [i64; 52] {
    array::from_fn(|j| if j % 4 == 1 || j % 4 == 2 { b } else { a })
}

pub fn scatter_cases<W: Write + Drop>(report: &mut Report<W>) {
    let small = pattern(1500, -1500);
    let large = pattern(9_999_500, -9_999_500);
    // the squares' sum is 0 modulo 2^64
    let wrapping = pattern(4_294_967_296, -4_294_967_296);
    try_scatter(report, "a = 1500", &small, Reply::Sigma(2));
    try_scatter(report, "a = 9999500", &large, Reply::Refused(6));
    try_scatter(report, "a = 2^32", &wrapping, Reply::Refused(6));
    try_scatter(report, "3 values", &[0; 3], Reply::Refused(1));
    try_scatter(report, "53 values", &[0; 53], Reply::Refused(1));
}

// A date and a second, and what the start test should give.
const STARTS: [(&str, u32, u32, Reply); 9] = [
    ("MJD 50722, 120", 50722, 120, Reply::Accepted),
    ("MJD 50722, 84600", 50722, 84600, Reply::Accepted),
    ("MJD 50722, 85560", 50722, 85560, Reply::Refused(8)),
    ("MJD 50723, 840", 50723, 840, Reply::Accepted),
    ("MJD 50723, 86040", 50723, 86040, Reply::Accepted),
    ("MJD 50723, 86280", 50723, 86280, Reply::Refused(8)),
    ("MJD 50723, 120", 50723, 120, Reply::Refused(8)),
    ("MJD 56842, 840", 56842, 840, Reply::Accepted),
    ("MJD 56842, 120", 56842, 120, Reply::Refused(8)),
];

pub fn start_cases<W: Write + Drop>(report: &mut Report<W>) {
    for (case, mjd, second, should) in STARTS {
        let gave = Reply::of(schedule::start(mjd, second), |_| Reply::Accepted);
        report.compare("start", case, gave, should);
    }
}

// The labels and the numbers of document 01's sample line, and the line.
const LABELS: Labels = Labels {
    constellation: b'G',
    satellite: 5,
    cl: 255,
    fr: 0,
    hc: 0,
    frc1: b'L',
    frc2: b'1',
    frc3: b'C',
    mjd: 50722,
    start: 120,
    elv: 450,
    azth: 1800,
    ioe: 7,
};

const NUMBERS: Numbers = Numbers {
    refsv: 10,
    srsv: 0,
    refsys: 10,
    srsys: 0,
    mdtr: 0,
    smdt: 0,
    mdio: 0,
    smdi: 0,
    dsg: 0,
    trkl: 780,
};

const LINE: &str =
    "G05 FF 50722 000200 0780 450 1800 +0000000010 +00000 +0000000010 +00000 0000 007 0000 +000 0000 +000 00 00 L1C 26";

// How many bytes of a part of a lent line are as they were lent.
fn try_kept<W: Write + Drop>(report: &mut Report<W>, case: &str, part: &[u8], should: usize) {
    let kept = part.iter().filter(|byte| **byte == FILL).count();
    report.compare("line", case, Reply::Kept(kept), Reply::Kept(should));
}

// A lent line one byte too short.
fn short_line_cases<W: Write + Drop>(report: &mut Report<W>) {
    let mut lent = [FILL; 112];
    let answer = line::line(LABELS, NUMBERS, &mut lent);
    let gave = Reply::of(answer, |_| Reply::Written);
    report.compare("line", "lent 112 bytes", gave, Reply::Refused(9));
    try_kept(report, "lent 112 bytes", &lent, 112);
}

// A lent line one byte longer than it needs to be.
fn long_line_cases<W: Write + Drop>(report: &mut Report<W>) {
    let mut lent = [FILL; 114];
    let answer = line::line(LABELS, NUMBERS, &mut lent);
    let (written, rest) = lent.split_at(113);
    report.line(b"lent 114 bytes", answer, written, 0, LINE.as_bytes());
    try_kept(report, "lent 114 bytes, the last", rest, 1);
}

pub fn line_cases<W: Write + Drop>(report: &mut Report<W>) {
    short_line_cases(report);
    long_line_cases(report);
}
