// An answer against the one that a line gives.
use crate::answer::Answer;
use crate::word::Word;
use std::fmt;

// An answer that came where another was expected.
#[derive(Clone, Copy)]
pub(crate) struct Difference {
    expected: Answer,
    came: Answer,
}

impl fmt::Display for Difference {
    fn fmt<W: fmt::Write>(&self, f: &mut fmt::Formatter<W>) -> fmt::Result {
        write!(f, "expected{}, came{}", self.expected, self.came)
    }
}

// The answer in the form that the line gives: folded, or its words, "none" where it has none.
fn in_form(expected: &Answer, answer: Answer) -> Answer {
    if expected.first() == Word::Fold {
        return Answer::of(Word::Fold).and(answer.fold);
    }
    if answer.is_empty() {
        return Answer::of(Word::None);
    }
    answer
}

// None where the answer is the one that the line gives.
pub(crate) fn compare(expected: Answer, answer: Answer) -> Option<Difference> {
    let came = in_form(&expected, answer);
    (expected != came).then_some(Difference { expected, came })
}
