// The price sheet.
ghost use Rattle.std.specs.Prelude.{◌≡◌};
ghost use Rattle.sheet.specs.Calls.{totals_call};
ghost use Rattle.exports.specs.Prices.{open_sheet_reply, refresh_reply, replied_totals, sheet_reply_of};

use exports::prices::{Marked, Sums};
use stand::volume::Volume;

#[unsafe(no_mangle)]
pub extern "C" fn stand_open_sheet(
    volume: Volume,
    mark: u64,
    cells: &[u16],
    rates: &[u32],
    cut: u32,
    rule: u32,
    mask: &mut [u16],
    sheet: &mut [u64],
) -> Marked
    ensures { sheet_reply_of result mask.new sheet.new ≡ open_sheet_reply volume mark cells.now rates.now cut rule mask.old sheet.old }
{
    exports::prices::stand_open_sheet(volume, mark, cells, rates, cut, rule, mask, sheet)
}

#[unsafe(no_mangle)]
pub extern "C" fn stand_refresh(
    volume: Volume,
    mark: u64,
    cells: &[u16],
    log: &[u32],
    last: &[u64],
    rates: &[u32],
    cut: u32,
    rule: u32,
    mask: &mut [u16],
    sheet: &mut [u64],
) -> Marked
    ensures { sheet_reply_of result mask.new sheet.new ≡ refresh_reply volume mark cells.now log.now last.now rates.now cut rule mask.old sheet.old }
{
    exports::prices::stand_refresh(
        volume, mark, cells, log, last, rates, cut, rule, mask, sheet,
    )
}

#[unsafe(no_mangle)]
pub extern "C" fn stand_totals(volume: Volume, sheet: &[u64]) -> Sums
    ensures { result ≡ replied_totals (totals_call volume sheet.now) }
{
    exports::prices::stand_totals(volume, sheet)
}
