// What a line is refused for by itself.
ghost use Rattle.std.specs.Prelude.{◌≡◌};
ghost use Rattle.limits.specs.Numbers.{number_of};
ghost use Rattle.linefile.specs.Files.{ended_number};

use columns::{ENDED_LENGTH, LINE_LENGTH};
use limits::Refusal;

// Where line feed stands, behind carriage return.
const LINE_FEED: usize = LINE_LENGTH + 1;

pub fn line_refusal(line: &[u8; ENDED_LENGTH]) -> Result<(), Refusal>
    ensures { number_of result ≡ ended_number line.now }
{
    reader::read(&line[..LINE_LENGTH])?;
    if (line[LINE_LENGTH] != b'\r') | (line[LINE_FEED] != b'\n') {
        return Err(Refusal::Character);
    }
    Ok(())
}
