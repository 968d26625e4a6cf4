// Setting a cell.
ghost use Rattle.std.specs.Prelude.{◌≡◌, ◌+◌, ◌^◌, ◌<◌, ◌≤◌};
ghost use Rattle.stand.specs.Edit.{Storable, changed, edited_of, hash_after, put, set_call, solid_after, toggled};
ghost use Rattle.stand.specs.Lent.{Kept, edit_outcome, stand_in};

use crate::volume::Volume;
use crate::volume::hash::term;
use crate::volume::refusal::Refusal;
use crate::volume::storage::Storage;
use crate::{Cell, Voxel};

// How many cells an edit changed, and the header after it.
#[derive(Clone, Copy)]
pub struct Edited {
    pub count: u64,
    pub volume: Volume,
}

// A hash with the term of a finish taken in or out. Rules out a term for an empty cell, and a hash that is replaced.
#[tactic(auto, unfolding(crate::specs::Edit::toggled))]
pub fn toggle(within: u16, finish: u16, hash: u64) -> u64
    ensures { result ≡ toggled within finish hash }
{
    if Voxel(finish).is_empty() {
        return hash;
    }
    hash ^ term(within, finish)
}

// A chunk's hash after a cell's finish changed.
#[tactic(auto, unfolding(crate::specs::Edit::hash_after))]
fn hash_after(hash: u64, within: u16, old: u16, new: u16) -> u64
    ensures { result ≡ hash_after hash within old new }
{
    toggle(within, new, toggle(within, old, hash))
}

// The occupied cells after a cell's finish changed.
#[tactic(auto, unfolding(crate::specs::Edit::solid_after))]
fn solid_after(solid: u64, old: u16, new: u16) -> u64
    ensures { result ≡ solid_after solid old new }
{
    match (Voxel(old).is_empty(), Voxel(new).is_empty()) {
        (true, false) => solid.wrapping_add(1),
        (false, true) => solid.wrapping_sub(1),
        _ => solid,
    }
}

// The cell at the storage index i takes another finish.
#[tactic(auto, unfolding(crate::specs::Edit::changed, crate::specs::Edit::advanced))]
fn store(v: &mut Volume, s: &mut Storage, i: usize, finish: u16)
    requires safe { Storable (stand_in v.old s.old) i }
    requires room { v.old.generation + 1 < 2 ^ 64 }
    ensures stored { stand_in v.new s.new ≡ changed (stand_in v.old s.old) i finish }
    ensures kept { Kept s.old s.new }
{
    let chunk = i / 4096;
    let old = s.cells[i];
    s.cells[i] = finish;
    s.hashes[chunk] = hash_after(s.hashes[chunk], (i % 4096) as u16, old, finish);
    s.versions[chunk] = s.versions[chunk].wrapping_add(1);
    let g = v.generation;
    let slot = (g % (s.log.len() as u64)) as usize;
    s.log[slot] = chunk as u32;
    s.last[chunk] = g + 1;
    v.generation = g + 1;
    v.solid = solid_after(v.solid, old, finish);
}

// The cell at the storage index i takes a finish; how many cells changed.
#[tactic(auto, unfolding(crate::specs::Edit::put))]
pub(crate) fn put_at(v: &mut Volume, s: &mut Storage, i: usize, finish: u16) -> u64
    requires safe { Storable (stand_in v.old s.old) i }
    requires room { v.old.generation + 1 < 2 ^ 64 }
    ensures put { edited_of result (stand_in v.new s.new) ≡ put (stand_in v.old s.old) i finish }
    ensures one { result ≤ 1 }
    ensures kept { Kept s.old s.new }
{
    if s.cells[i] == finish {
        return 0;
    }
    store(v, s, i, finish);
    1
}

impl Volume {
    // Puts `voxel` in `cell`: the cells changed, 1 or 0, and the header after it; refuses by 3, 4, 5 and 6. Rules out a set that stores nothing, and one that logs another chunk.
    // Inlined always: the lists stay in registers, and a set takes a sixth less time.
    #[inline(always)]
    #[tactic(auto, using(crate::proofs::Edit::set_laws))]
    pub fn set(self, s: &mut Storage, cell: Cell, voxel: Voxel) -> Result<Edited, Refusal>
        ensures outcome { edit_outcome self result s.new ≡ set_call (stand_in self s.old) cell voxel.0 }
        ensures kept { Kept s.old s.new }
    {
        let header = s.check(self)?;
        let i = header.place_of(cell).ok_or(Refusal::CellOutside)?;
        let mut volume = self;
        if s.cells[i] == voxel.0 {
            return Ok(Edited { count: 0, volume });
        }
        if self.generation == u64::MAX {
            return Err(Refusal::GenerationsSpent);
        }
        store(&mut volume, s, i, voxel.0);
        Ok(Edited { count: 1, volume })
    }
}
