// The editing call over a header that is lent.
ghost use Rattle.std.specs.Prelude.{◌≡◌};
ghost use Rattle.stand.specs.Answer.{answer_of};
ghost use Rattle.stand.specs.Edit.{set_call};
ghost use Rattle.stand.specs.Lent.{Kept, stand_in};
ghost use Rattle.stand.specs.Storage.{outcome_of};

use crate::volume::Volume;
use crate::volume::refusal::Refusal;
use crate::volume::storage::Storage;
use crate::{Cell, Voxel};

// Puts `voxel` in `cell` and alters the header where it is; the cells changed, 1 or 0; refuses by 3, 4, 5 and 6. Rules out a header that keeps its generation, and a set that stores nothing.
// Kept: a call beside `set`, since the C interface has both; it is `set` and the header put back.
pub fn set_lent(
    volume: &mut Volume,
    s: &mut Storage,
    cell: Cell,
    voxel: Voxel,
) -> Result<u64, Refusal>
    ensures outcome { outcome_of (answer_of result) (stand_in volume.new s.new) ≡ set_call (stand_in volume.old s.old) cell voxel.0 }
    ensures kept { Kept s.old s.new }
{
    let done = (*volume).set(s, cell, voxel)?;
    *volume = done.volume;
    Ok(done.count)
}
