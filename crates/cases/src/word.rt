// Words of arguments and answers: decimal digits, before which may stand a '-', or a name.
use crate::fault::Fault;
use std::fmt;

// A number, a negative one modulo 2^64, or a word of an answer that is no number.
// Kept: an enum of its own, since the last three are words that stand in a line; each is folded and printed by a match below.
#[derive(Clone, Copy, PartialEq, Eq)]
pub(crate) enum Word {
    Number(u64),
    Refused,
    None,
    Fold,
}

// Numbers that no call answers, for the words that are no numbers.
// Kept: this and the next two are numbers, since what an answer is folded of and what an argument is passed as are numbers.
const REFUSED: u64 = 18_446_744_069_414_584_320;

const NONE: u64 = 18_446_744_069_414_584_319;

const FOLD: u64 = 18_446_744_069_414_584_318;

impl Word {
    // The number that a word is folded as, and passed as where it is an argument.
    // Kept: a method, read behind the word; a From would be the same four arms.
    pub(crate) fn number(self) -> u64 {
        match self {
            Word::Number(n) => n,
            Word::Refused => REFUSED,
            Word::None => NONE,
            Word::Fold => FOLD,
        }
    }
}

// A number, or the word that has this number.
impl From<u64> for Word {
    fn from(n: u64) -> Word {
        match n {
            REFUSED => Word::Refused,
            NONE => Word::None,
            FOLD => Word::Fold,
            _ => Word::Number(n),
        }
    }
}

// A word of digits.
// Kept: `parse` of the library takes a text, and a '+' before the digits.
fn digits(text: &[u8]) -> Result<u64, Fault> {
    if text.is_empty() {
        return Err(Fault::NotANumber);
    }
    let mut n: u64 = 0;
    for b in text {
        let digit = char::from(*b).to_digit(10).ok_or(Fault::NotANumber)?;
        let tens = n.checked_mul(10).ok_or(Fault::TooLarge)?;
        n = tens.checked_add(u64::from(digit)).ok_or(Fault::TooLarge)?;
    }
    Ok(n)
}

fn named(text: &[u8]) -> Result<Word, Fault> {
    match text {
        b"East" | b"no" | b"unchanged" | b"empty" => Ok(Word::Number(0)),
        b"West" | b"yes" | b"changed" | b"solid" => Ok(Word::Number(1)),
        b"Top" => Ok(Word::Number(2)),
        b"Bottom" => Ok(Word::Number(3)),
        b"North" => Ok(Word::Number(4)),
        b"South" => Ok(Word::Number(5)),
        b"refused" => Ok(Word::Refused),
        b"none" => Ok(Word::None),
        b"fold" => Ok(Word::Fold),
        _ => Err(Fault::NotANumber),
    }
}

impl<'a> TryFrom<&'a [u8]> for Word {
    type Error = Fault;

    fn try_from(text: &'a [u8]) -> Result<Word, Fault> {
        match text {
            [b'-', others @ ..] => Ok(Word::from(digits(others)?.wrapping_neg())),
            [b'0'..=b'9', ..] => Ok(Word::from(digits(text)?)),
            _ => named(text),
        }
    }
}

impl fmt::Display for Word {
    fn fmt<W: fmt::Write>(&self, f: &mut fmt::Formatter<W>) -> fmt::Result {
        match *self {
            Word::Number(n) if n < 0xffff_ffff_8000_0000 => write!(f, "{n}"),
            Word::Number(n) => write!(f, "-{}", n.wrapping_neg()),
            Word::Refused => write!(f, "refused"),
            Word::None => write!(f, "none"),
            Word::Fold => write!(f, "fold"),
        }
    }
}
