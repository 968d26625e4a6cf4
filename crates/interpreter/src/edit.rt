// Opening, setting and filling, on the part of the storage that the stand has.
ghost use Rattle.std.specs.Prelude.{◌≡◌, length};
ghost use Rattle.stand.specs.Answer.{answer_of};
ghost use Rattle.stand.specs.Storage.{storage_of};
ghost use Rattle.interpreter.specs.Edits.{chunks_for, edit_call, edit_step, edited_turn, made};
ghost use Rattle.interpreter.specs.Held.{Kept, SameRest, storage_held};
ghost use Rattle.interpreter.specs.Run.{edited_of, turn_of};

use crate::lists::{Lists, chunks_in, chunks_of};
use crate::{Machine, Reply};
use stand::volume::opening::header;
use stand::volume::refusal::Refusal;
use stand::volume::storage::Storage;
use stand::volume::{Extent, Volume};
use stand::{Cell, Voxel};

// A call of kind 1, 2 or 3.
#[derive(Clone, Copy)]
pub(crate) enum Edit {
    Open(Cell, Extent),
    Set(Cell, u16),
    Fill(Cell, Cell, u16),
}

impl Edit {
    // The chunks that the edit asks for: an opening, those of the new stand.
    #[tactic(auto, unfolding(crate::specs::Room::wanted_of))]
    fn chunks(self, v: Volume) -> u64
        ensures { result ≡ chunks_for self v }
    {
        match self {
            Edit::Open(origin, size) => chunks_in(header(origin, size)),
            _ => chunks_of(v),
        }
    }

    // The header after the edit of a stand, made on its lists.
    // Kept: the lists are parameters; of a part of a list that a struct holds, tried, the prover does not know what it is left as.
    fn make(
        self,
        v: Volume,
        cells: &mut [u16],
        hashes: &mut [u64],
        versions: &mut [u32],
        log: &mut [u32],
        last: &mut [u64],
    ) -> Result<Volume, Refusal>
        ensures { made v (answer_of result) (storage_of cells.new hashes.new versions.new log.new last.new) ≡ edit_call self v (storage_of cells.old hashes.old versions.old log.old last.old) }
    {
        let mut s = Storage {
            cells,
            hashes,
            versions,
            log,
            last,
        };
        match self {
            Edit::Open(origin, size) => Volume::new(origin, size, &mut s),
            Edit::Set(cell, finish) => Ok(v.set(&mut s, cell, Voxel(finish))?.volume),
            Edit::Fill(from, to, finish) => Ok(v.fill(&mut s, from, to, Voxel(finish))?.volume),
        }
    }
}

// After an edit: the new header, and a refresh after an opening measures all; a refused edit keeps the stand.
fn edited(m: &mut Machine, edit: Edit, made: Result<Volume, Refusal>) -> Reply
    ensures { turn_of m.new result ≡ edited_turn edit m.old (answer_of made) }
{
    match made {
        Ok(volume) => {
            m.volume = volume;
            m.stale = matches!(edit, Edit::Open(..)) || m.stale;
            Reply::Quiet
        }
        Err(r) => Reply::Refused(r.number()),
    }
}

// Kinds 1 to 3.
// Kept: `Kept`, here and in `quote`, `run` and `step`, speaks of the lists before and after, which no invariant of one value can say; the header is named once, since it is used twice.
#[tactic(auto, using(crate::proofs::Edits::edited_so))]
pub(crate) fn make_edit(m: &mut Machine, lists: &mut Lists, edit: Edit) -> Reply
    ensures outcome { edited_of (turn_of m.new result) (storage_held lists.new) ≡ edit_step edit m.old (storage_held lists.old) (length lists.old.sheet.now) }
    ensures rest { SameRest lists.old lists.new }
    ensures kept { Kept lists.old lists.new }
{
    let volume = m.volume;
    let n = lists.lent(edit.chunks(volume));
    let made = edit.make(
        volume,
        &mut lists.cells[..n * 4096],
        &mut lists.hashes[..n],
        &mut lists.versions[..n],
        &mut lists.log[..n],
        &mut lists.last[..n],
    );
    edited(m, edit, made)
}
