// What is wrong with a line.
ghost use Rattle.std.specs.Prelude.{◌≡◌, Some};
ghost use Rattle.quote.specs.Fault.{text_of};
ghost use Rattle.quote.specs.declared.fault.Fault.TheVariants.{LineTooLong};

use lines::TooLong;
use std::error::Error;
use std::fmt;

#[derive(Clone, Copy, Debug, PartialEq, Eq)]
pub(crate) enum Fault {
    UnknownWord,
    MissingNumber,
    NotANumber,
    NumberTooLarge,
    ExtraWord,
    LineTooLong,
}

impl fmt::Display for Fault {
    ghost output = { λ f. Some (text_of f) };

    fn fmt<W: fmt::Write>(&self, f: &mut fmt::Formatter<W>) -> fmt::Result {
        match self {
            Fault::UnknownWord => write!(f, "unknown word"),
            Fault::MissingNumber => write!(f, "a number is missing"),
            Fault::NotANumber => write!(f, "not a number"),
            Fault::NumberTooLarge => write!(f, "a number is too large"),
            Fault::ExtraWord => write!(f, "more than the call takes"),
            Fault::LineTooLong => write!(f, "longer than 255 bytes"),
        }
    }
}

impl Error for Fault {}

impl From<TooLong> for Fault {
    ghost from_gives = { λ _ f. f ≡ LineTooLong };

    fn from(_long: TooLong) -> Fault {
        Fault::LineTooLong
    }
}
