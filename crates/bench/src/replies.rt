// What an operation gave or should give, and how the report says it.
use limits::Refusal;
use std::fmt;

#[derive(Clone, Copy, PartialEq)]
pub enum Reply {
    // Kept: a number, as what is expected comes from a file and may be any.
    Refused(u32),
    Value(i64),
    Line { midpoint: i64, slope: i64 },
    Sigma(i64),
    Accepted,
    Written,
    Kept(usize),
}

impl Reply {
    // An answer, with what it gives said as this case.
    pub fn of<T, F: FnOnce(T) -> Reply>(answer: Result<T, Refusal>, said: F) -> Reply
        requires { F.IsAlwaysCallable said }
    {
        match answer {
            Ok(value) => said(value),
            Err(refusal) => Reply::Refused(u32::from(refusal)),
        }
    }
}

impl fmt::Display for Reply {
    fn fmt<W: fmt::Write>(&self, f: &mut fmt::Formatter<W>) -> fmt::Result {
        match *self {
            Reply::Refused(number) => write!(f, "refused {number}"),
            Reply::Value(value) => write!(f, "value {value}"),
            Reply::Line { midpoint, slope } => write!(f, "midpoint {midpoint} slope {slope}"),
            Reply::Sigma(dsg) => write!(f, "DSG {dsg}"),
            Reply::Accepted => write!(f, "accepted"),
            Reply::Written => write!(f, "written"),
            Reply::Kept(bytes) => write!(f, "bytes kept {bytes}"),
        }
    }
}
