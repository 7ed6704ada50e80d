// The walk over two lists of lines, always at the earlier of the two first lines, and at both where these have the same keys.
ghost use Rattle.std.specs.Prelude.{◌≡◌};
ghost use Rattle.std.specs.Iterator.{YieldsFirstBy, item_count};
ghost use Rattle.linefile.specs.Walk.{step_map, steps};

use crate::accepted_lines::{AcceptedLines, EndedLine};
use crate::rank::rank;
use crate::step::Step;

// What is left of the two lists.
#[derive(Clone, Copy)]
pub struct Walk<'a> {
    pub first: &'a [EndedLine],
    pub second: &'a [EndedLine],
}

impl<'a> AcceptedLines<'a> {
    // The walk over these lines and those of a second file.
    pub fn walk(self, second: AcceptedLines<'a>) -> Walk<'a>
        ensures first { result.first.now ≡ self.entry.lines.now }
        ensures second { result.second.now ≡ second.entry.lines.now }
    {
        Walk {
            first: self.lines,
            second: second.lines,
        }
    }
}

impl<'a> Iterator for Walk<'a> {
    type Item = Step<&'a EndedLine>;

    ghost next_gives = { YieldsFirstBy (step_map (λ line. line.now)) (λ walk. steps walk.first.now walk.second.now) };

    ghost remaining = { item_count (λ walk. steps walk.first.now walk.second.now) };

    fn next(&mut self) -> Option<Step<&'a EndedLine>> {
        let Some((line, lines)) = self.first.split_first() else {
            let (other, others) = self.second.split_first()?;
            self.second = others;
            return Some(Step::Second(other));
        };
        let Some((other, others)) = self.second.split_first() else {
            self.first = lines;
            return Some(Step::First(line));
        };
        let place = rank(line);
        let other_place = rank(other);
        if place < other_place {
            self.first = lines;
            return Some(Step::First(line));
        }
        self.second = others;
        if other_place < place {
            return Some(Step::Second(other));
        }
        self.first = lines;
        Some(Step::Both(line, other))
    }
}
