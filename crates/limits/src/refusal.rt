// What is refused, and the paper's number of it.
ghost use Rattle.std.specs.Prelude.{◌≡◌};
ghost use Rattle.limits.specs.Numbers.{paper_number, number_of};

// The refusals of documents 01 and 02. The names are those of include/trackline.h, the numbers the paper's; 10 is retired.
#[derive(Clone, Copy, Debug, PartialEq, Eq)]
pub enum Refusal {
    Count = 1,
    Limit = 2,
    Midpoint = 3,
    Slope = 4,
    Delay = 5,
    Scatter = 6,
    Label = 7,
    Start = 8,
    Lent = 9,
    Length = 11,
    LineLength = 12,
    Character = 13,
    Checksum = 14,
    Differ = 15,
    Order = 16,
    Room = 17,
    NoPair = 18,
    FileLength = 19,
    Store = 20,
    NotYet = 21,
    NotLater = 22,
    NotWhole = 23,
    Coordinate = 24,
    NotGps = 25,
}

// The paper's number.
impl From<Refusal> for u32 {
    ghost from_gives = { λ refusal number. number ≡ paper_number refusal };

    fn from(refusal: Refusal) -> u32 {
        refusal as u32
    }
}

// The number of an answer: that of the refusal, 0 where there is none.
pub fn reply_number<T: Copy>(answer: Result<T, Refusal>) -> u32
    ensures { result ≡ number_of answer }
{
    match answer {
        Ok(_) => 0,
        Err(refusal) => u32::from(refusal),
    }
}
