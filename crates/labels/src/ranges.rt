// The ranges of the labels and of the track length.
ghost use Rattle.std.specs.Prelude.{◌≡◌};
ghost use Rattle.labels.specs.Labels.{constellation_fits_lem, code_fits_lem, labels_fit_lem, track_length_fits_lem};

use crate::Labels;
use limits::outside;

// Whether the letter is a constellation's, and IOE and FR are in its ranges.
fn constellation_fits(letter: u8, ioe: u16, fr: u8) -> bool
    ensures { result ≡ constellation_fits_lem letter ioe fr }
{
    match letter {
        b'G' | b'J' => (ioe <= 255) & (fr == 0),
        b'R' => (1 <= ioe) & (ioe <= 96) & (1 <= fr) & (fr <= 24),
        b'E' => (ioe <= 999) & (fr == 0),
        b'C' => (ioe <= 23) & (fr == 0),
        _ => false,
    }
}

// Whether c may stand in FRC.
fn code_fits(c: u8) -> bool
    ensures { result ≡ code_fits_lem c }
{
    c.is_ascii_uppercase() | c.is_ascii_digit()
}

// Whether all labels are in range but the date and the start.
pub fn labels_fit(labels: Labels) -> bool
    ensures { result ≡ labels_fit_lem labels }
{
    constellation_fits(labels.constellation, labels.ioe, labels.fr)
        & (1 <= labels.satellite)
        & (labels.satellite <= 99)
        & (labels.hc <= 99)
        & (code_fits(labels.frc1) & code_fits(labels.frc2) & code_fits(labels.frc3))
        & (labels.elv <= 900)
        & (labels.azth <= 3599)
}

// The least and the greatest track length in seconds: 4 and 52 blocks.
const SHORTEST: i64 = 60;

const LONGEST: i64 = 780;

// Whether the track length is 15 s for each block of a track that there may be.
pub fn track_length_fits(trkl: i64) -> bool
    ensures { result ≡ track_length_fits_lem trkl }
{
    (trkl.unsigned_abs() % 15 == 0) & !outside(SHORTEST, LONGEST, trkl)
}
