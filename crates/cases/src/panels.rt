// Panels, slices, and what mask and list hold.
use crate::answer::Answer;
use crate::args::{Args, Rule, bare, one};
use crate::fault::Fault;
use crate::stage::Stage;
use crate::words::Words;
use exports::panels::{stand_chunk_faces, stand_faces};
use exports::reply::Number;
use exports::slices::{PanelGiven, Sliced, stand_chunk_slice, stand_claim};

#[derive(Clone, Copy)]
pub(crate) enum PanelCall {
    // A section's.
    Panels(usize, Rule),
    // The whole stand's.
    Whole(Rule),
    Slice(SectionSlice),
    Claim(usize),
    Panel(usize),
    Slots,
    Numbers,
}

// A slice of a section's side, and the outside rule.
// Kept: the side is its number, since the C interface takes that.
#[derive(Clone, Copy)]
pub(crate) struct SectionSlice {
    section: usize,
    side: u32,
    slice: usize,
    rule: Rule,
}

fn read_slice(words: Words) -> Result<SectionSlice, Fault> {
    let a = Args::read(words, 4)?;
    Ok(SectionSlice {
        section: a.get(0)?,
        side: a.at_most(1, 5)?,
        slice: a.get(2)?,
        rule: a.rule(3)?,
    })
}

// The refusal that adds the panels needed.
const TOO_SHORT: u32 = 11;

fn meshed(r: Number) -> Answer {
    if r.code == TOO_SHORT {
        return Answer::refused(r.code).and(r.value);
    }
    r.into()
}

// The eight numbers of a panel, and the next slot.
// Kept: `given` is tested, since the reply is the C interface's.
fn claimed(p: PanelGiven) -> Answer {
    if p.given == 0 {
        return Answer::none();
    }
    Answer::of(p.cell)
        .and(p.side)
        .and(p.finish)
        .and(p.extent)
        .and(p.next)
}

// The panel number i of a list.
fn panel_at(list: &[i32], i: usize) -> Answer {
    list.chunks_exact(8)
        .nth(i)
        .map_or(Answer::none(), |panel| Answer::of(panel))
}

impl Stage {
    // The panels of a section.
    fn mesh_section(&mut self, section: usize, rule: Rule) -> Number {
        stand_chunk_faces(
            self.volume,
            self.storage.cells.entries(),
            section,
            rule as u32,
            self.mask.entries_mut(),
            self.list.entries_mut(),
        )
    }

    // The panels of the whole stand.
    fn mesh(&mut self, rule: Rule) -> Number {
        stand_faces(
            self.volume,
            self.storage.cells.entries(),
            rule as u32,
            self.mask.entries_mut(),
            self.list.entries_mut(),
        )
    }

    // A slice of a section laid into the mask.
    fn lay(&mut self, slice: SectionSlice) -> Sliced {
        let r = stand_chunk_slice(
            self.volume,
            self.storage.cells.entries(),
            slice.section,
            slice.side,
            slice.slice,
            slice.rule as u32,
            self.mask.entries_mut(),
        );
        self.slice = r.slice;
        r
    }
}

impl PanelCall {
    pub(crate) fn read(name: &[u8], words: Words) -> Result<Option<PanelCall>, Fault> {
        Ok(Some(match name {
            b"panels" => {
                let a = Args::read(words, 2)?;
                PanelCall::Panels(a.get(0)?, a.rule(1)?)
            }
            b"whole" => PanelCall::Whole(Args::read(words, 1)?.rule(0)?),
            b"slice" => PanelCall::Slice(read_slice(words)?),
            b"claim" => PanelCall::Claim(one(words)?),
            b"panel" => PanelCall::Panel(one(words)?),
            b"slots" => bare(words, PanelCall::Slots)?,
            b"numbers" => bare(words, PanelCall::Numbers)?,
            _ => return Ok(None),
        }))
    }

    pub(crate) fn make(self, stage: &mut Stage) -> Answer {
        match self {
            PanelCall::Panels(section, rule) => meshed(stage.mesh_section(section, rule)),
            PanelCall::Whole(rule) => meshed(stage.mesh(rule)),
            PanelCall::Slice(slice) => stage.lay(slice).into(),
            PanelCall::Claim(from) => {
                claimed(stand_claim(stage.slice, stage.mask.entries_mut(), from))
            }
            PanelCall::Panel(i) => panel_at(stage.list.entries(), i),
            PanelCall::Slots => Answer::of(stage.mask.entries()),
            PanelCall::Numbers => Answer::of(stage.list.entries()),
        }
    }
}
