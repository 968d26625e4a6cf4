// Opening, setting and filling.
ghost use Rattle.std.specs.Prelude.{◌≡◌};
ghost use Rattle.stand.specs.Edit.{set_call};
ghost use Rattle.stand.specs.Fill.{fill_call};
ghost use Rattle.stand.specs.Opening.{header_call, open_call};
ghost use Rattle.stand.specs.Storage.{state_of, storage_of};
ghost use Rattle.exports.specs.Edit.{edit_reply, open_reply, replied_header, wrote_of};

use exports::edit::{Edited, Opened};
use stand::Cell;
use stand::volume::{Extent, Volume};

#[unsafe(no_mangle)]
pub extern "C" fn stand_header(origin: Cell, size: Extent) -> Opened
    ensures { result ≡ replied_header (header_call origin size) }
{
    exports::edit::stand_header(origin, size)
}

#[unsafe(no_mangle)]
pub extern "C" fn stand_open(
    origin: Cell,
    size: Extent,
    cells: &mut [u16],
    hashes: &mut [u64],
    versions: &mut [u32],
    log: &mut [u32],
    last: &mut [u64],
) -> Opened
    ensures { wrote_of result (storage_of cells.new hashes.new versions.new log.new last.new) ≡ open_reply (open_call (storage_of cells.old hashes.old versions.old log.old last.old) origin size) }
{
    exports::edit::stand_open(origin, size, cells, hashes, versions, log, last)
}

#[unsafe(no_mangle)]
pub extern "C" fn stand_set(
    volume: Volume,
    cells: &mut [u16],
    hashes: &mut [u64],
    versions: &mut [u32],
    log: &mut [u32],
    last: &mut [u64],
    cell: Cell,
    finish: u16,
) -> Edited
    ensures { wrote_of result (storage_of cells.new hashes.new versions.new log.new last.new) ≡ edit_reply (set_call (state_of volume cells.old hashes.old versions.old log.old last.old) cell finish) }
{
    exports::edit::stand_set(volume, cells, hashes, versions, log, last, cell, finish)
}

#[unsafe(no_mangle)]
pub extern "C" fn stand_fill(
    volume: Volume,
    cells: &mut [u16],
    hashes: &mut [u64],
    versions: &mut [u32],
    log: &mut [u32],
    last: &mut [u64],
    from: Cell,
    to: Cell,
    finish: u16,
) -> Edited
    ensures { wrote_of result (storage_of cells.new hashes.new versions.new log.new last.new) ≡ edit_reply (fill_call (state_of volume cells.old hashes.old versions.old log.old last.old) from to finish) }
{
    exports::edit::stand_fill(volume, cells, hashes, versions, log, last, from, to, finish)
}
