// What is wrong with a line.
use lines::TooLong;
use std::fmt;

#[derive(Clone, Copy)]
pub(crate) enum Fault {
    TooLong,
    Unknown,
    Missing,
    NotANumber,
    TooLarge,
    Extra,
}

impl fmt::Display for Fault {
    fn fmt<W: fmt::Write>(&self, f: &mut fmt::Formatter<W>) -> fmt::Result {
        f.write_str(match self {
            Fault::TooLong => "longer than 4095 bytes",
            Fault::Unknown => "unknown word",
            Fault::Missing => "a number is missing",
            Fault::NotANumber => "not a number",
            Fault::TooLarge => "a number is too large",
            Fault::Extra => "more than the call takes",
        })
    }
}

impl From<TooLong> for Fault {
    fn from(_long: TooLong) -> Fault {
        Fault::TooLong
    }
}
