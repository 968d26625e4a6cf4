// The editing call over a header that is lent.
// Kept: a twin of `stand_set` with the same lists, since C calls both, this with the header by reference and that with it by value.
ghost use Rattle.std.specs.Prelude.{◌≡◌};
ghost use Rattle.stand.specs.Edit.{set_call};
ghost use Rattle.stand.specs.Storage.{state_of};
ghost use Rattle.exports.specs.Edit.{lent_of, lent_reply};

use crate::edit::stand_set;
use crate::reply::Number;
use stand::Cell;
use stand::volume::Volume;

// Gives a cell a finish and alters the header where it is. Rules out a header that keeps its generation, and one altered by a refused call.
pub fn stand_set_lent(
    volume: &mut Volume,
    cells: &mut [u16],
    hashes: &mut [u64],
    versions: &mut [u32],
    log: &mut [u32],
    last: &mut [u64],
    cell: Cell,
    finish: u16,
) -> Number
    ensures { lent_of result (state_of volume.new cells.new hashes.new versions.new log.new last.new) ≡ lent_reply (set_call (state_of volume.old cells.old hashes.old versions.old log.old last.old) cell finish) }
{
    let done = stand_set(*volume, cells, hashes, versions, log, last, cell, finish);
    *volume = done.volume;
    Number {
        code: done.code,
        value: done.changed,
    }
}
