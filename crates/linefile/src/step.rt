// A step of a walk over two lists of lines: it passes a line of the first, one of the second, or one of each.
ghost use Rattle.std.specs.Prelude.{◌≡◌};
ghost use Rattle.linefile.specs.Walk.{line_of};

#[derive(Clone, Copy)]
pub enum Step<L> {
    First(L),
    Second(L),
    // two lines that have the same keys
    Both(L, L),
}

impl<L: Copy> Step<L> {
    // The line that is passed, that of the first list where there are two.
    pub fn line(self) -> L
        ensures { result ≡ line_of self }
    {
        match self {
            Step::First(line) => line,
            Step::Second(other) => other,
            Step::Both(line, _) => line,
        }
    }
}
