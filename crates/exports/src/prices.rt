// The price sheet.
// Kept: replies with a code beside the value, the mask beside the sheet, the rule a number, and a call each to open and to refresh, since C calls them so.
ghost use Rattle.std.specs.Prelude.{◌≡◌};
ghost use Rattle.stand.specs.Answer.{answer_of};
ghost use Rattle.sheet.specs.Calls.{totals_call};
ghost use Rattle.exports.specs.Prices.{open_sheet_reply, refresh_reply, replied_marks, replied_totals, sheet_reply_of};

use crate::rule::{BAD_ARGUMENT, rule_at};
use sheet::open::open;
use sheet::refresh::refresh;
use sheet::totals::totals;
use sheet::{Marks, Row, Terms};
use stand::volume::Volume;
use stand::volume::feed::Changes;
use stand::volume::refusal::Refusal;

// The mark after a call; where it is refused, the mark given.
#[repr(C)]
#[derive(Clone, Copy)]
pub struct Marked {
    pub code: u32,
    pub mark: u64,
}

// The sums of a sheet's rows.
#[repr(C)]
#[derive(Clone, Copy)]
pub struct Sums {
    pub code: u32,
    pub panels: u64,
    pub faces: u64,
    pub cents: u64,
}

// The marks after a call; where it is refused, the mark given.
// Kept: no From, since a refusal answers the mark given, which is a second argument.
fn mark_reply(old: u64, a: Result<Marks, Refusal>) -> Marked
    ensures { result ≡ replied_marks old a }
{
    match a {
        Ok(marks) => Marked {
            code: 0,
            mark: marks.sheet,
        },
        Err(r) => Marked {
            code: r.number(),
            mark: old,
        },
    }
}

// The sheet opened. Rules out rule 2 taken for one of the two, and a mark that is not the generation.
#[tactic(auto, unfolding(crate::specs::Prices::open_sheet_reply))]
pub fn stand_open_sheet(
    volume: Volume,
    mark: u64,
    cells: &[u16],
    rates: &[u32],
    cut: u32,
    rule: u32,
    mask: &mut [u16],
    sheet: &mut [u64],
) -> Marked
    ensures { sheet_reply_of result mask.new sheet.new ≡ open_sheet_reply volume mark cells.now rates.now cut rule mask.old sheet.old }
{
    let Some(beyond) = rule_at(rule) else {
        return Marked {
            code: BAD_ARGUMENT,
            mark,
        };
    };
    let marks = Marks { sheet: mark };
    let terms = Terms { rates, cut, beyond };
    mark_reply(mark, open(volume, marks, cells, terms, mask, sheet))
}

// The sheet brought up to the generation. Rules out a mark moved with the rows left as they were, and the other rule.
#[tactic(auto, unfolding(crate::specs::Prices::refresh_reply))]
pub fn stand_refresh(
    volume: Volume,
    mark: u64,
    cells: &[u16],
    log: &[u32],
    last: &[u64],
    rates: &[u32],
    cut: u32,
    rule: u32,
    mask: &mut [u16],
    sheet: &mut [u64],
) -> Marked
    ensures { sheet_reply_of result mask.new sheet.new ≡ refresh_reply volume mark cells.now log.now last.now rates.now cut rule mask.old sheet.old }
{
    let Some(beyond) = rule_at(rule) else {
        return Marked {
            code: BAD_ARGUMENT,
            mark,
        };
    };
    let marks = Marks { sheet: mark };
    let changes = Changes { log, last };
    let terms = Terms { rates, cut, beyond };
    mark_reply(
        mark,
        refresh(volume, marks, cells, changes, terms, mask, sheet),
    )
}

// The sums or their refusal. Rules out two of the sums swapped, and sums beside a refusal.
impl From<Result<Row, Refusal>> for Sums {
    ghost from_gives = { λ a r. r ≡ replied_totals (answer_of a) };

    fn from(a: Result<Row, Refusal>) -> Sums {
        match a {
            Ok(row) => Sums {
                code: 0,
                panels: row.panels,
                faces: row.faces,
                cents: row.cents,
            },
            Err(r) => Sums {
                code: r.number(),
                panels: 0,
                faces: 0,
                cents: 0,
            },
        }
    }
}

// The sums of all rows. Rules out sums of a sheet that 13 refuses, and two of the sums swapped.
pub fn stand_totals(volume: Volume, sheet: &[u64]) -> Sums
    ensures { result ≡ replied_totals (totals_call volume sheet.now) }
{
    Sums::from(totals(volume, sheet))
}
