// The arguments of a call: as many as it takes, each of them as what it stands for.
ghost use Rattle.std.specs.Prelude.{◌<◌};

use crate::fault::Fault;
use crate::list::List;
use crate::stage::BYTES;
use crate::word::Word;
use crate::words::{Words, is_equals};
use stand::Cell;
use stand::volume::Extent;

// The words up to a '='.
pub(crate) fn read_words(words: Words) -> Result<List<Word, 64>, Fault> {
    let mut list = List::of(Word::None, 0);
    for text in words {
        if is_equals(text) {
            break;
        }
        let word = Word::try_from(text)?;
        list.push(word).ok_or(Fault::Extra)?;
    }
    Ok(list)
}

// What lies outside the stand, by the numbers of the C interface.
#[derive(Clone, Copy)]
pub(crate) enum Rule {
    Solid = 0,
    Empty = 1,
}

#[derive(Clone, Copy)]
pub(crate) struct Args {
    words: List<Word, 64>,
}

impl Args {
    // At least and at most as many as told.
    fn between(words: Words, least: usize, most: usize) -> Result<Args, Fault> {
        let words = read_words(words)?;
        let n = words.entries().len();
        if most < n {
            return Err(Fault::Extra);
        }
        if n < least {
            return Err(Fault::Missing);
        }
        Ok(Args { words })
    }

    // Exactly as many as told.
    pub(crate) fn read(words: Words, n: usize) -> Result<Args, Fault> {
        Args::between(words, n, n)
    }

    // The argument number i, which must fit its type.
    pub(crate) fn get<T: TryFrom<u64>>(&self, i: usize) -> Result<T, Fault>
    where
        T::Error: Drop,
    {
        let word = self.words.entries().get(i).ok_or(Fault::Missing)?;
        T::try_from(word.number()).map_err(|_| Fault::TooLarge)
    }

    // The same, at most as large as told.
    pub(crate) fn at_most<T: TryFrom<u64> + PartialOrd + Drop>(
        &self,
        i: usize,
        most: T,
    ) -> Result<T, Fault>
    where
        T::Error: Drop,
    {
        let x: T = self.get(i)?;
        if most < x {
            return Err(Fault::TooLarge);
        }
        Ok(x)
    }

    pub(crate) fn coordinate(&self, i: usize) -> Result<i32, Fault> {
        let x: u64 = self.get(i)?;
        i32::try_from(x.cast_signed()).map_err(|_| Fault::TooLarge)
    }

    pub(crate) fn cell(&self, i: usize) -> Result<Cell, Fault>
        requires { i < 62 }
    {
        let x = self.coordinate(i)?;
        let y = self.coordinate(i + 1)?;
        let z = self.coordinate(i + 2)?;
        Ok(Cell { x, y, z })
    }

    pub(crate) fn extent(&self, i: usize) -> Result<Extent, Fault>
        requires { i < 62 }
    {
        Ok(self.cell(i)?.into())
    }

    // Kept: two lines; a TryFrom would have a type for its error beside, where `at_most` already refuses.
    pub(crate) fn rule(&self, i: usize) -> Result<Rule, Fault> {
        let solid: u64 = self.at_most(i, 1)?;
        Ok(if solid == 0 { Rule::Empty } else { Rule::Solid })
    }
}

// A place and the bytes from there on, 1 to 60 of them.
pub(crate) fn place_and_bytes(words: Words) -> Result<(usize, List<u8, 60>), Fault> {
    let args = Args::between(words, 2, 61)?;
    let mut bytes = List::of(0u8, 0);
    for word in args.words.entries().iter().skip(1) {
        let b = u8::try_from(word.number()).map_err(|_| Fault::TooLarge)?;
        bytes.push(b).ok_or(Fault::Extra)?;
    }
    Ok((args.at_most(0, BYTES)?, bytes))
}

// The only argument of a call.
pub(crate) fn one<T: TryFrom<u64>>(words: Words) -> Result<T, Fault>
where
    T::Error: Drop,
{
    Args::read(words, 1)?.get(0)
}

// A call that takes none.
pub(crate) fn bare<T: Drop>(words: Words, call: T) -> Result<T, Fault> {
    Args::read(words, 0)?;
    Ok(call)
}
