// A call, told by its group.
use crate::answer::Answer;
use crate::cells::CellRead;
use crate::edits::Edit;
use crate::fault::Fault;
use crate::keep::FormCall;
use crate::measures::SheetCall;
use crate::panels::PanelCall;
use crate::sections::{HeaderRead, SectionRead};
use crate::stage::Stage;
use crate::staging::{ListLine, ValueLine};
use crate::words::Words;

#[derive(Clone, Copy)]
pub(crate) enum Call {
    Lists(ListLine),
    Values(ValueLine),
    Edit(Edit),
    Cells(CellRead),
    Header(HeaderRead),
    Sections(SectionRead),
    Panels(PanelCall),
    Sheet(SheetCall),
    Form(FormCall),
}

impl Call {
    // The call of a name, with its arguments.
    pub(crate) fn read(name: &[u8], words: Words) -> Result<Call, Fault> {
        if let Some(call) = ListLine::read(name, words)? {
            return Ok(Call::Lists(call));
        }
        if let Some(call) = ValueLine::read(name, words)? {
            return Ok(Call::Values(call));
        }
        if let Some(call) = Edit::read(name, words)? {
            return Ok(Call::Edit(call));
        }
        if let Some(call) = CellRead::read(name, words)? {
            return Ok(Call::Cells(call));
        }
        if let Some(call) = HeaderRead::read(name, words)? {
            return Ok(Call::Header(call));
        }
        if let Some(call) = SectionRead::read(name, words)? {
            return Ok(Call::Sections(call));
        }
        if let Some(call) = PanelCall::read(name, words)? {
            return Ok(Call::Panels(call));
        }
        if let Some(call) = SheetCall::read(name, words)? {
            return Ok(Call::Sheet(call));
        }
        if let Some(call) = FormCall::read(name, words)? {
            return Ok(Call::Form(call));
        }
        Err(Fault::Unknown)
    }

    pub(crate) fn make(self, stage: &mut Stage) -> Answer {
        match self {
            Call::Lists(call) => call.make(stage),
            Call::Values(call) => call.make(stage),
            Call::Edit(call) => call.make(stage),
            Call::Cells(call) => call.make(stage),
            Call::Header(call) => call.make(stage),
            Call::Sections(call) => call.make(stage),
            Call::Panels(call) => call.make(stage),
            Call::Sheet(call) => call.make(stage),
            Call::Form(call) => call.make(stage),
        }
    }
}
