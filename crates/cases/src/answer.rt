// Answers as words: the one that a call gives, and the one that it must have.
use crate::word::Word;
use stand::Cell;
use stand::volume::Extent;
use stand::volume::hash::fold;
use std::fmt;

// The first 64 words, how many there are, and the fold of all.
// Kept: an array with a count beside it, since the project has no heap.
#[derive(Clone, Copy, PartialEq, Eq)]
pub(crate) struct Answer {
    words: [Word; 64],
    count: usize,
    pub fold: u64,
}

// The 64-bit value that is folded: of a negative number its 32-bit pattern.
// Kept: no From, since it is of a u64 and gives a u64.
fn folded(x: u64) -> u64 {
    if x < 0xffff_ffff_8000_0000 {
        return x;
    }
    x - 0xffff_ffff_0000_0000
}

impl Answer {
    pub(crate) fn none() -> Answer {
        Answer {
            words: [Word::None; 64],
            count: 0,
            fold: 0xcbf2_9ce4_8422_2325,
        }
    }

    pub(crate) fn of<T: Entry>(x: T) -> Answer {
        Answer::none().and(x)
    }

    // Kept: the code is a number, since the C interface answers it as one.
    pub(crate) fn refused(code: u32) -> Answer {
        Answer::of(Word::Refused).and(code)
    }

    // With what stands in x behind it.
    pub(crate) fn and<T: Entry>(self, x: T) -> Answer {
        let mut answer = self;
        x.put(&mut answer);
        answer
    }

    pub(crate) fn is_empty(&self) -> bool {
        self.count == 0
    }

    pub(crate) fn first(&self) -> Word {
        self.words[0]
    }

    fn push(&mut self, word: Word) {
        if let Some(slot) = self.words.get_mut(self.count) {
            *slot = word;
        }
        self.count = self.count.wrapping_add(1);
        self.fold = fold(self.fold, folded(word.number()));
    }
}

impl fmt::Display for Answer {
    // The first 64 words, each after a blank.
    fn fmt<W: fmt::Write>(&self, f: &mut fmt::Formatter<W>) -> fmt::Result {
        for word in self.words.iter().take(self.count) {
            write!(f, " {word}")?;
        }
        Ok(())
    }
}

// What stands in an answer for a value: its words, one after another.
pub(crate) trait Entry: Copy {
    fn put(self, answer: &mut Answer);
}

impl Entry for Word {
    fn put(self, answer: &mut Answer) {
        answer.push(self);
    }
}

impl Entry for u64 {
    fn put(self, answer: &mut Answer) {
        answer.push(Word::from(self));
    }
}

// Kept: an impl for each unsigned type, since one for all that go into u64 would overlap with those below.
impl Entry for u32 {
    fn put(self, answer: &mut Answer) {
        u64::from(self).put(answer);
    }
}

impl Entry for u16 {
    fn put(self, answer: &mut Answer) {
        u64::from(self).put(answer);
    }
}

impl Entry for u8 {
    fn put(self, answer: &mut Answer) {
        u64::from(self).put(answer);
    }
}

// A negative number modulo 2^64.
impl Entry for i32 {
    fn put(self, answer: &mut Answer) {
        i64::from(self).cast_unsigned().put(answer);
    }
}

impl Entry for Cell {
    fn put(self, answer: &mut Answer) {
        [self.x, self.y, self.z].as_slice().put(answer);
    }
}

impl Entry for Extent {
    fn put(self, answer: &mut Answer) {
        [self.x, self.y, self.z].as_slice().put(answer);
    }
}

impl<T: Entry> Entry for &[T] {
    fn put(self, answer: &mut Answer) {
        for x in self {
            x.put(answer);
        }
    }
}
