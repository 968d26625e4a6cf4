// The walks: over the chunks changed since a mark, and over the occupied cells.
ghost use Rattle.std.specs.Prelude.{◌≡◌};
ghost use Rattle.stand.specs.Feed.{changed_since, changed_step};
ghost use Rattle.stand.specs.Solids.{solids_call};
ghost use Rattle.exports.specs.Reply.{replied};
ghost use Rattle.exports.specs.Walk.{replied_chunk, replied_solid};

use exports::reply::Number;
use exports::walk::{ChunkGiven, SolidGiven};
use stand::volume::Volume;

#[unsafe(no_mangle)]
pub extern "C" fn stand_changed_since(
    volume: Volume,
    log: &[u32],
    last: &[u64],
    mark: u64,
) -> Number
    ensures { result ≡ replied (changed_since volume log.now last.now mark) }
{
    exports::walk::stand_changed_since(volume, log, last, mark)
}

#[unsafe(no_mangle)]
pub extern "C" fn stand_changed_step(
    volume: Volume,
    log: &[u32],
    last: &[u64],
    next: u64,
) -> ChunkGiven
    ensures { result ≡ replied_chunk (changed_step volume log.now last.now next) }
{
    exports::walk::stand_changed_step(volume, log, last, next)
}

#[unsafe(no_mangle)]
pub extern "C" fn stand_solid_step(volume: Volume, cells: &[u16], next: usize) -> SolidGiven
    ensures { result ≡ replied_solid (solids_call volume cells.now next) }
{
    exports::walk::stand_solid_step(volume, cells, next)
}
