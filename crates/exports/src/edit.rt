// Opening, setting and filling.
// Kept: replies with a code beside the value, lists one by one and a function for each edit, since the C interface has them so.
ghost use Rattle.std.specs.Prelude.{◌≡◌};
ghost use Rattle.stand.specs.Answer.{answer_of};
ghost use Rattle.stand.specs.Edit.{set_call};
ghost use Rattle.stand.specs.Fill.{fill_call};
ghost use Rattle.stand.specs.Opening.{header_call, open_call};
ghost use Rattle.stand.specs.Storage.{state_of, storage_of};
ghost use Rattle.exports.specs.Edit.{edit_reply, open_reply, replied_header, replied_result, wrote_of};

use stand::volume::opening::header;
use stand::volume::refusal::Refusal;
use stand::volume::storage::Storage;
use stand::volume::{Extent, Volume, edit};
use stand::{Cell, Voxel};

// A stand just opened; a header of zeros where it is refused.
#[repr(C)]
#[derive(Clone, Copy)]
pub struct Opened {
    pub code: u32,
    pub volume: Volume,
}

// The cells changed, and the header after the edit.
#[repr(C)]
#[derive(Clone, Copy)]
pub struct Edited {
    pub code: u32,
    pub changed: u64,
    pub volume: Volume,
}

// A header or its refusal. Rules out a header beside a refusal, and a code of 0 for one.
impl From<Result<Volume, Refusal>> for Opened {
    ghost from_gives = { λ a r. r ≡ replied_header (answer_of a) };

    fn from(a: Result<Volume, Refusal>) -> Opened {
        match a {
            Ok(volume) => Opened { code: 0, volume },
            Err(r) => Opened {
                code: r.number(),
                volume: Volume::default(),
            },
        }
    }
}

// What an edit of a stand answers, with the old header where it is refused.
fn edit_result(old: Volume, a: Result<edit::Edited, Refusal>) -> Edited
    ensures { result ≡ replied_result old a }
{
    match a {
        Ok(done) => Edited {
            code: 0,
            changed: done.count,
            volume: done.volume,
        },
        Err(r) => Edited {
            code: r.number(),
            changed: 0,
            volume: old,
        },
    }
}

// The header that opening would give. Rules out a code for storage, which is not looked at, and a header where 1 or 2 applies.
pub fn stand_header(origin: Cell, size: Extent) -> Opened
    ensures { result ≡ replied_header (header_call origin size) }
{
    Opened::from(header(origin, size))
}

// Opens a stand. Rules out a code of 0 for a refused opening, and lists that are not zeroed.
// Kept: here, in the next two calls and in `stand_load` the struct of the five lists is built in place; made by a function, the prover loses what the lists become.
pub fn stand_open(
    origin: Cell,
    size: Extent,
    cells: &mut [u16],
    hashes: &mut [u64],
    versions: &mut [u32],
    log: &mut [u32],
    last: &mut [u64],
) -> Opened
    ensures { wrote_of result (storage_of cells.new hashes.new versions.new log.new last.new) ≡ open_reply (open_call (storage_of cells.old hashes.old versions.old log.old last.old) origin size) }
{
    let mut storage = Storage {
        cells,
        hashes,
        versions,
        log,
        last,
    };
    Opened::from(Volume::new(origin, size, &mut storage))
}

// Gives a cell a finish. Rules out the old header for a change, and "changed" for an equal finish.
pub fn stand_set(
    volume: Volume,
    cells: &mut [u16],
    hashes: &mut [u64],
    versions: &mut [u32],
    log: &mut [u32],
    last: &mut [u64],
    cell: Cell,
    finish: u16,
) -> Edited
    ensures { wrote_of result (storage_of cells.new hashes.new versions.new log.new last.new) ≡ edit_reply (set_call (state_of volume cells.old hashes.old versions.old log.old last.old) cell finish) }
{
    let mut storage = Storage {
        cells,
        hashes,
        versions,
        log,
        last,
    };
    edit_result(volume, volume.set(&mut storage, cell, Voxel(finish)))
}

// Gives every cell that lies both in a box and in the stand a finish. Rules out a count of the box instead of the cells changed, and another header than the last one.
pub fn stand_fill(
    volume: Volume,
    cells: &mut [u16],
    hashes: &mut [u64],
    versions: &mut [u32],
    log: &mut [u32],
    last: &mut [u64],
    from: Cell,
    to: Cell,
    finish: u16,
) -> Edited
    ensures { wrote_of result (storage_of cells.new hashes.new versions.new log.new last.new) ≡ edit_reply (fill_call (state_of volume cells.old hashes.old versions.old log.old last.old) from to finish) }
{
    let mut storage = Storage {
        cells,
        hashes,
        versions,
        log,
        last,
    };
    edit_result(volume, volume.fill(&mut storage, from, to, Voxel(finish)))
}
