// The lines of a file that was accepted.
ghost use Rattle.std.specs.Prelude.{◌≡◌, ◌*◌, ◌^◌, ◌<◌, [], length};
ghost use Rattle.columns.specs.Text.{ended_length};
ghost use Rattle.linefile.specs.Files.{lines_number};

use columns::ENDED_LENGTH;

// A line with its end.
pub type EndedLine = [u8; ENDED_LENGTH];

// Lines of which none is refused: each is accepted by itself, and they ascend strictly.
#[derive(Clone, Copy)]
pub struct AcceptedLines<'a> {
    pub lines: &'a [EndedLine],
    pub ghost accepted: { lines_number [] lines.now ≡ 0 },
    // their bytes can be counted, those of two files too
    pub ghost counted: { ended_length * length lines.now < 2 ^ 63 },
}
