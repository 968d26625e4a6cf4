// The sheet: opening, refresh and totals.
use crate::answer::Answer;
use crate::args::{Args, Rule, bare};
use crate::fault::Fault;
use crate::stage::Stage;
use crate::words::Words;
use exports::prices::{Marked, stand_open_sheet, stand_refresh, stand_totals};

#[derive(Clone, Copy)]
pub(crate) enum SheetCall {
    Open(Rule),
    Refresh(Rule),
    Totals,
    Rows,
    Marked,
}

impl Stage {
    fn open_sheet(&mut self, rule: Rule) -> Marked {
        stand_open_sheet(
            self.volume,
            self.mark,
            self.storage.cells.entries(),
            self.rates.entries(),
            self.cut,
            rule as u32,
            self.mask.entries_mut(),
            self.sheet.entries_mut(),
        )
    }

    fn refresh(&mut self, rule: Rule) -> Marked {
        stand_refresh(
            self.volume,
            self.mark,
            self.storage.cells.entries(),
            self.storage.log.entries(),
            self.storage.last.entries(),
            self.rates.entries(),
            self.cut,
            rule as u32,
            self.mask.entries_mut(),
            self.sheet.entries_mut(),
        )
    }

    // The sheet opened or refreshed.
    fn measured(&mut self, r: Marked) -> Answer {
        self.mark = r.mark;
        r.into()
    }
}

impl SheetCall {
    pub(crate) fn read(name: &[u8], words: Words) -> Result<Option<SheetCall>, Fault> {
        Ok(Some(match name {
            b"open-sheet" => SheetCall::Open(Args::read(words, 1)?.rule(0)?),
            b"refresh" => SheetCall::Refresh(Args::read(words, 1)?.rule(0)?),
            b"totals" => bare(words, SheetCall::Totals)?,
            b"rows" => bare(words, SheetCall::Rows)?,
            b"marked" => bare(words, SheetCall::Marked)?,
            _ => return Ok(None),
        }))
    }

    pub(crate) fn make(self, stage: &mut Stage) -> Answer {
        match self {
            SheetCall::Open(rule) => {
                let r = stage.open_sheet(rule);
                stage.measured(r)
            }
            SheetCall::Refresh(rule) => {
                let r = stage.refresh(rule);
                stage.measured(r)
            }
            SheetCall::Totals => stand_totals(stage.volume, stage.sheet.entries()).into(),
            SheetCall::Rows => Answer::of(stage.sheet.entries()),
            SheetCall::Marked => Answer::of(stage.mark),
        }
    }
}
