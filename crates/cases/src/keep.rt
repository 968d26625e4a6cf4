// The stored form: storing, its length, its header, and the bytes that are kept.
use crate::answer::Answer;
use crate::args::{Args, bare};
use crate::fault::Fault;
use crate::list::some;
use crate::replies::said;
use crate::stage::{BYTES, Stage};
use crate::words::Words;
use exports::edit::Opened;
use exports::keep::{stand_store, stand_stored_header, stand_stored_length};

#[derive(Clone, Copy)]
pub(crate) enum FormCall {
    Store,
    StoredLength,
    StoredHeader,
    Bytes(usize, usize),
}

// A header's numbers, as a line sets them.
fn header(r: Opened) -> Answer {
    let v = r.volume;
    let shape = Answer::of(v.origin).and(v.chunks).and(v.size);
    said(r.code, shape.and(v.generation).and(v.solid))
}

// At most n bytes from a place on.
fn bytes_at(form: &[u8], at: usize, n: usize) -> Answer {
    form.get(at..)
        .map_or(Answer::none(), |rest| Answer::of(some(rest, n)))
}

impl FormCall {
    pub(crate) fn read(name: &[u8], words: Words) -> Result<Option<FormCall>, Fault> {
        Ok(Some(match name {
            b"store" => bare(words, FormCall::Store)?,
            b"stored-length" => bare(words, FormCall::StoredLength)?,
            b"stored-header" => bare(words, FormCall::StoredHeader)?,
            b"bytes" => {
                let a = Args::read(words, 2)?;
                FormCall::Bytes(a.at_most(0, BYTES)?, a.at_most(1, BYTES)?)
            }
            _ => return Ok(None),
        }))
    }

    pub(crate) fn make(self, stage: &mut Stage) -> Answer {
        let v = stage.volume;
        let cells = stage.storage.cells.entries();
        match self {
            FormCall::Store => stand_store(v, cells, stage.form.entries_mut()).into(),
            FormCall::StoredLength => stand_stored_length(v, cells).into(),
            FormCall::StoredHeader => header(stand_stored_header(stage.form.entries())),
            FormCall::Bytes(at, n) => bytes_at(stage.form.entries(), at, n),
        }
    }
}
