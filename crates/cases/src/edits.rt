// Opening, set, fill and loading.
use crate::answer::Answer;
use crate::args::{Args, bare};
use crate::fault::Fault;
use crate::replies::said;
use crate::stage::{Stage, Storage};
use crate::words::Words;
use exports::edit::{Edited, Opened, stand_fill, stand_open, stand_set};
use exports::keep::stand_load;
use stand::Cell;
use stand::volume::{Extent, Volume};

#[derive(Clone, Copy)]
pub(crate) enum Edit {
    Open(Cell, Extent),
    Set(Cell, u16),
    Fill(Cell, Cell, u16),
    Load,
}

// Kept: four calls that lend the same five lists, since the C interface takes them one by one.
impl Storage {
    fn open(&mut self, origin: Cell, size: Extent) -> Opened {
        stand_open(
            origin,
            size,
            self.cells.entries_mut(),
            self.hashes.entries_mut(),
            self.versions.entries_mut(),
            self.log.entries_mut(),
            self.last.entries_mut(),
        )
    }

    fn load(&mut self, form: &[u8]) -> Opened {
        stand_load(
            form,
            self.cells.entries_mut(),
            self.hashes.entries_mut(),
            self.versions.entries_mut(),
            self.log.entries_mut(),
            self.last.entries_mut(),
        )
    }

    fn set(&mut self, v: Volume, at: Cell, finish: u16) -> Edited {
        stand_set(
            v,
            self.cells.entries_mut(),
            self.hashes.entries_mut(),
            self.versions.entries_mut(),
            self.log.entries_mut(),
            self.last.entries_mut(),
            at,
            finish,
        )
    }

    fn fill(&mut self, v: Volume, from: Cell, to: Cell, finish: u16) -> Edited {
        stand_fill(
            v,
            self.cells.entries_mut(),
            self.hashes.entries_mut(),
            self.versions.entries_mut(),
            self.log.entries_mut(),
            self.last.entries_mut(),
            from,
            to,
            finish,
        )
    }
}

impl Stage {
    // The size of a stand just opened or loaded; a refused one keeps the stand.
    // Kept: a code of 0 is tested, since the reply is the C interface's.
    fn opened(&mut self, r: Opened) -> Answer {
        if r.code == 0 {
            self.volume = r.volume;
        }
        said(r.code, Answer::of(r.volume.size))
    }

    // How many cells changed.
    fn edited(&mut self, r: Edited) -> Answer {
        self.volume = r.volume;
        said(r.code, Answer::of(r.changed))
    }
}

impl Edit {
    pub(crate) fn read(name: &[u8], words: Words) -> Result<Option<Edit>, Fault> {
        Ok(Some(match name {
            b"open" => {
                let a = Args::read(words, 6)?;
                Edit::Open(a.cell(0)?, a.extent(3)?)
            }
            b"set" => {
                let a = Args::read(words, 4)?;
                Edit::Set(a.cell(0)?, a.get(3)?)
            }
            b"fill" => {
                let a = Args::read(words, 7)?;
                Edit::Fill(a.cell(0)?, a.cell(3)?, a.get(6)?)
            }
            b"load" => bare(words, Edit::Load)?,
            _ => return Ok(None),
        }))
    }

    pub(crate) fn make(self, stage: &mut Stage) -> Answer {
        let v = stage.volume;
        match self {
            Edit::Open(origin, size) => {
                let r = stage.storage.open(origin, size);
                stage.opened(r)
            }
            Edit::Set(at, finish) => {
                let r = stage.storage.set(v, at, finish);
                stage.edited(r)
            }
            Edit::Fill(from, to, finish) => {
                let r = stage.storage.fill(v, from, to, finish);
                stage.edited(r)
            }
            Edit::Load => {
                let r = stage.storage.load(stage.form.entries());
                stage.opened(r)
            }
        }
    }
}
