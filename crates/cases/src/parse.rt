// A line, parsed into a call and the answer that it must have.
use crate::answer::Answer;
use crate::args::read_words;
use crate::call::Call;
use crate::fault::Fault;
use crate::words::Words;

// A call, and the answer that it must have where the line gives one.
#[derive(Clone, Copy)]
pub(crate) struct Case {
    pub call: Call,
    pub expected: Option<Answer>,
}

// The answer that stands behind a '='.
fn expected(words: Words) -> Result<Answer, Fault> {
    let list = read_words(words)?;
    if words.behind_equals().is_some() {
        return Err(Fault::Extra);
    }
    if list.entries().is_empty() {
        return Err(Fault::Missing);
    }
    Ok(Answer::of(list.entries()))
}

// None for an empty line, or a comment alone.
pub(crate) fn parse(line: &[u8]) -> Result<Option<Case>, Fault> {
    let mut words = Words::of(line);
    let Some(name) = words.next() else {
        return Ok(None);
    };
    let call = Call::read(name, words)?;
    let expected = words.behind_equals().map(expected).transpose()?;
    Ok(Some(Case { call, expected }))
}
