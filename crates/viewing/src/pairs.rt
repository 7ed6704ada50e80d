// The pairs of two line files, and what is reported of their differences. The walk over the files is that of crate linefile.
ghost use Rattle.std.specs.Prelude.{◌≡◌, cond, ◌+◌, ◌≤◌, eqb, pos, nat_abs, ◌-ℤ◌, length};
ghost use Rattle.fields.specs.Read.{read_decimal};
ghost use Rattle.columns.specs.Columns.{field};
ghost use Rattle.linefile.specs.Files.{columns_of, ended_number};
ghost use Rattle.linefile.specs.Partners.{partners};
ghost use Rattle.viewing.specs.View.{trkl_of, refsys_of, differences, same_trkl, figures, most_lines};
ghost use Rattle.viewing.specs.Gather.{counted, widest, most_steps, Bounded};

use super::Figures;
use fields::two_digits;
use linefile::{AcceptedLines, EndedLine, Step};

// TRKL of an accepted line, as its digits stand: 48 · 1111 more than it.
// Kept: two digits at a time, and the line's acceptance as a clause: the walk hands out lines, and `reading` reads a whole line.
fn trkl(line: &EndedLine) -> u64
    requires { ended_number line.now ≡ 0 }
    ensures { result ≡ trkl_of line.now + 53328 }
{
    100 * two_digits(line, 20) + two_digits(line, 22)
}

// The magnitude of an accepted line's REFSYS. Its ten digits as they stand are 48 · 1111111111 more.
fn refsys_size(line: &EndedLine) -> i64
    requires { ended_number line.now ≡ 0 }
    ensures { result ≡ pos (read_decimal (field 55 64 (columns_of line.now))) }
{
    let high = 1000000 * two_digits(line, 54)
        + 10000 * two_digits(line, 56)
        + 100 * two_digits(line, 58)
        + two_digits(line, 60);
    (100 * high + two_digits(line, 62) - 53333333328) as i64
}

// REFSYS of an accepted line.
fn refsys(line: &EndedLine) -> i64
    requires { ended_number line.now ≡ 0 }
    ensures { result ≡ refsys_of line.now }
{
    let size = refsys_size(line);
    if line[53] == b'-' { -size } else { size }
}

// One difference more. The first one is the smallest and the largest by itself.
fn count(figures: Figures, difference: i64) -> Figures
    requires bounded { Bounded most_steps figures }
    requires difference_bound { nat_abs difference ≤ widest }
    ensures { result ≡ counted figures difference }
{
    let next = Figures {
        pairs: figures.pairs + 1,
        sum: figures.sum + difference,
        smallest: difference,
        largest: difference,
    };
    if figures.pairs < 1 {
        return next;
    }
    Figures {
        smallest: figures.smallest.min(difference),
        largest: difference.max(figures.largest),
        ..next
    }
}

// The difference of two lines of the same keys is counted where they are a pair.
fn count_pair(figures: Figures, line: &EndedLine, other: &EndedLine) -> Figures
    requires bounded { Bounded most_steps figures }
    requires line_value { ended_number line.now ≡ 0 }
    requires other_value { ended_number other.now ≡ 0 }
    ensures { result ≡ cond (eqb (trkl_of line.now) (trkl_of other.now)) (counted figures (refsys_of line.now -ℤ refsys_of other.now)) figures }
{
    if trkl(line) == trkl(other) {
        return count(figures, refsys(line) - refsys(other));
    }
    figures
}

// What is reported of all pairs.
pub fn gather(first: AcceptedLines, second: AcceptedLines) -> Figures
    requires { length first.lines.now ≤ most_lines }
    ensures { result ≡ figures (differences (same_trkl (partners first.entry.lines.now second.entry.lines.now))) }
{
    let mut gathered = Figures {
        pairs: 0,
        sum: 0,
        smallest: 0,
        largest: 0,
    };
    for step in first.walk(second) {
        if let Step::Both(line, other) = step {
            gathered = count_pair(gathered, line, other);
        }
    }
    gathered
}
