// Calls that read the cells.
use crate::answer::{Answer, Entry};
use crate::args::{Args, bare};
use crate::fault::Fault;
use crate::replies::said;
use crate::stage::Stage;
use crate::words::Words;
use exports::read::{stand_chunk_of, stand_clamp, stand_contains, stand_get, stand_is_solid};
use exports::walk::stand_solid_step;
use stand::Cell;
use stand::volume::Volume;

#[derive(Clone, Copy)]
pub(crate) enum CellRead {
    Get(Cell),
    Inside(Cell),
    Occupied(Cell),
    Section(Cell),
    Clamp(Cell),
    Solids,
}

fn cell_of(words: Words) -> Result<Cell, Fault> {
    Args::read(words, 3)?.cell(0)
}

// The occupied cells and their finishes: at most as many as there are cells, and then the end.
// Kept: steps with a code and `given`, and the header beside its cells, since the C interface has them so.
fn solids(v: Volume, cells: &[u16]) -> Answer {
    let mut given = Answer::none();
    let mut next: usize = 0;
    for _ in 0..=cells.len() {
        let g = stand_solid_step(v, cells, next);
        if g.given == 0 {
            return said(g.code, given);
        }
        g.cell.put(&mut given);
        g.finish.put(&mut given);
        next = g.next as usize;
    }
    given
}

impl CellRead {
    pub(crate) fn read(name: &[u8], words: Words) -> Result<Option<CellRead>, Fault> {
        Ok(Some(match name {
            b"get" => CellRead::Get(cell_of(words)?),
            b"inside" => CellRead::Inside(cell_of(words)?),
            b"occupied" => CellRead::Occupied(cell_of(words)?),
            b"section" => CellRead::Section(cell_of(words)?),
            b"clamp" => CellRead::Clamp(cell_of(words)?),
            b"solids" => bare(words, CellRead::Solids)?,
            _ => return Ok(None),
        }))
    }

    pub(crate) fn make(self, stage: &Stage) -> Answer {
        let v = stage.volume;
        let cells = stage.storage.cells.entries();
        match self {
            CellRead::Get(at) => stand_get(v, cells, at).into(),
            CellRead::Inside(at) => stand_contains(v, at).into(),
            CellRead::Occupied(at) => stand_is_solid(v, cells, at).into(),
            CellRead::Section(at) => stand_chunk_of(v, at).into(),
            CellRead::Clamp(at) => stand_clamp(v, at).into(),
            CellRead::Solids => solids(v, cells),
        }
    }
}
