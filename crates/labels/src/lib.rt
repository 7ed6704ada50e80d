// The labels that a line is written for, and what they and the ten numbers are refused for. All that documents 01 and 02 say of a line's
// content, but not of its bytes, is here: the labels' ranges, the track length, the start test and the limits on the numbers.
#![tactic(auto)]

ghost use Rattle.std.specs.Prelude.{◌≡◌};
ghost use Rattle.labels.specs.Content.{content_number};
ghost use Rattle.limits.specs.Numbers.{number_of};

pub use limits::Numbers;
use limits::Refusal;

mod ranges;

// The labels of a track, in the order of the hire block.
#[derive(Clone, Copy)]
pub struct Labels {
    pub constellation: u8,
    pub satellite: u8,
    pub cl: u8,
    pub fr: u8,
    pub hc: u8,
    pub frc1: u8,
    pub frc2: u8,
    pub frc3: u8,
    pub mjd: u32,
    pub start: u32,
    pub elv: u16,
    pub azth: u16,
    pub ioe: u16,
}

// The labels that a line of version 01 lacks: HC and the three characters of FRC.
#[derive(Clone, Copy)]
pub struct Supplied {
    pub hc: u8,
    pub frc1: u8,
    pub frc2: u8,
    pub frc3: u8,
}

// The first refusal of labels and numbers.
pub fn refusal(labels: Labels, numbers: Numbers) -> Result<(), Refusal>
    ensures { number_of result ≡ content_number labels numbers }
{
    if !ranges::labels_fit(labels) | !ranges::track_length_fits(numbers.trkl) {
        return Err(Refusal::Label);
    }
    schedule::start(labels.mjd, labels.start)?;
    limits::limits(numbers)?;
    limits::dsg(numbers.dsg)
}
