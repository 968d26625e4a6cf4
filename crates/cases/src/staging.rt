// Lines that set what later calls are lent, and what they are told.
use crate::answer::Answer;
use crate::args::{Args, one, place_and_bytes};
use crate::fault::Fault;
use crate::list::List;
use crate::stage::{BYTES, CELLS, NUMBERS, RATES, ROWS, SECTIONS, SLOTS, Stage};
use crate::words::Words;
use exports::slices::SideSlice;
use stand::volume::Volume;

// New lengths; mask, list, sheet and form hold a number in each place.
#[derive(Clone, Copy)]
pub(crate) enum ListLine {
    Lend(usize),
    Storage([usize; 5]),
    Mask(usize, u16),
    List(usize, i32),
    Sheet(usize, u64),
    Rates(usize),
    Form(usize, u8),
    Put(usize, List<u8, 60>),
}

#[derive(Clone, Copy)]
pub(crate) enum ValueLine {
    Cut(u32),
    Mark(u64),
    Rate(usize, u32),
    Header(Volume),
    Plane(SideSlice),
}

fn read_storage(words: Words) -> Result<[usize; 5], Fault> {
    let a = Args::read(words, 5)?;
    Ok([
        a.at_most(0, CELLS)?,
        a.at_most(1, SECTIONS)?,
        a.at_most(2, SECTIONS)?,
        a.at_most(3, SECTIONS)?,
        a.at_most(4, SECTIONS)?,
    ])
}

fn read_volume(words: Words) -> Result<Volume, Fault> {
    let a = Args::read(words, 11)?;
    Ok(Volume {
        origin: a.cell(0)?,
        chunks: a.extent(3)?,
        size: a.extent(6)?,
        generation: a.get(9)?,
        solid: a.get(10)?,
    })
}

fn read_plane(words: Words) -> Result<SideSlice, Fault> {
    let a = Args::read(words, 6)?;
    Ok(SideSlice {
        cell: a.cell(0)?,
        side: a.at_most(3, 5)?,
        width: a.get(4)?,
        height: a.get(5)?,
    })
}

impl ListLine {
    pub(crate) fn read(name: &[u8], words: Words) -> Result<Option<ListLine>, Fault> {
        Ok(Some(match name {
            b"lend" => ListLine::Lend(Args::read(words, 1)?.at_most(0, SECTIONS)?),
            b"storage" => ListLine::Storage(read_storage(words)?),
            b"mask" => {
                let a = Args::read(words, 2)?;
                ListLine::Mask(a.at_most(0, SLOTS)?, a.get(1)?)
            }
            b"list" => {
                let a = Args::read(words, 2)?;
                ListLine::List(a.at_most(0, NUMBERS)?, a.coordinate(1)?)
            }
            b"sheet" => {
                let a = Args::read(words, 2)?;
                ListLine::Sheet(a.at_most(0, ROWS)?, a.get(1)?)
            }
            b"rates" => ListLine::Rates(Args::read(words, 1)?.at_most(0, RATES)?),
            b"form" => {
                let a = Args::read(words, 2)?;
                ListLine::Form(a.at_most(0, BYTES)?, a.get(1)?)
            }
            b"put" => {
                let (at, bytes) = place_and_bytes(words)?;
                ListLine::Put(at, bytes)
            }
            _ => return Ok(None),
        }))
    }

    pub(crate) fn make(self, stage: &mut Stage) -> Answer {
        match self {
            ListLine::Lend(n) => stage.lend(n),
            ListLine::Storage(lengths) => stage.storage.resize(lengths),
            ListLine::Mask(n, x) => stage.mask = List::of(x, n),
            ListLine::List(n, x) => stage.list = List::of(x, n),
            ListLine::Sheet(n, x) => stage.sheet = List::of(x, n),
            ListLine::Rates(n) => stage.rates.resize(n),
            ListLine::Form(n, x) => stage.form = List::of(x, n),
            ListLine::Put(at, bytes) => put(stage.form.all_mut(), at, bytes.entries()),
        }
        Answer::none()
    }
}

// Bytes of the form, one after another from a place on; what would lie past its last is dropped.
fn put(form: &mut [u8], at: usize, bytes: &[u8]) {
    for (slot, b) in form.iter_mut().skip(at).zip(bytes) {
        *slot = *b;
    }
}

impl ValueLine {
    pub(crate) fn read(name: &[u8], words: Words) -> Result<Option<ValueLine>, Fault> {
        Ok(Some(match name {
            b"cut" => ValueLine::Cut(one(words)?),
            b"mark" => ValueLine::Mark(one(words)?),
            b"rate" => {
                let a = Args::read(words, 2)?;
                ValueLine::Rate(a.at_most(0, RATES - 1)?, a.get(1)?)
            }
            b"header" => ValueLine::Header(read_volume(words)?),
            b"plane" => ValueLine::Plane(read_plane(words)?),
            _ => return Ok(None),
        }))
    }

    pub(crate) fn make(self, stage: &mut Stage) -> Answer {
        match self {
            ValueLine::Cut(cut) => stage.cut = cut,
            ValueLine::Mark(mark) => stage.mark = mark,
            ValueLine::Rate(finish, rate) => {
                if let Some(slot) = stage.rates.all_mut().get_mut(finish) {
                    *slot = rate;
                }
            }
            ValueLine::Header(volume) => stage.volume = volume,
            ValueLine::Plane(slice) => stage.slice = slice,
        }
        Answer::none()
    }
}
