// The walk over occupied cells.
ghost use Rattle.std.specs.Prelude.{◌≡◌, ◌-◌, ◌*◌, ◌<◌, IfSome, length};
ghost use Rattle.stand.specs.Lent.{first_occupied, solid_answer};
ghost use Rattle.stand.specs.Shape.{cell_at, sections, shape_of};
ghost use Rattle.stand.specs.Solids.{solids_call};

use crate::volume::formed::Formed;
use crate::volume::refusal::Refusal;
use crate::volume::{CHUNK, CHUNK_CELLS, Volume};
use crate::{Cell, Voxel};

// Where a walk over occupied cells stands: the next storage index.
#[derive(Clone, Copy)]
pub struct Solids {
    pub next: usize,
}

// A cell that the walk gives, what it holds, and where to go on.
#[derive(Clone, Copy)]
pub struct Solid {
    pub cell: Cell,
    pub voxel: Voxel,
    pub rest: Solids,
}

// The first occupied index from `from` on.
#[tactic(auto, unfolding(crate::specs::Lent::first_occupied))]
fn next_solid(cells: &[u16], from: usize) -> Option<usize>
    ensures first { result ≡ first_occupied cells.now from (length cells.now - from) }
    ensures below { IfSome result (λ i. i < length cells.now) }
{
    (from..cells.len()).find(|i| !Voxel(cells[*i]).is_empty())
}

// The cell of a storage index, its coordinates saturating.
// Kept: by `offset` and not `cell_from`, which takes distances inside alone; the walk gives slots beyond the size too.
#[tactic(auto, using(crate::proofs::Solids::section_low, crate::proofs::Solids::near, crate::proofs::Solids::cell_of))]
fn cell_at(header: Formed, i: usize) -> Cell
    requires { i < sections (shape_of header.volume) * 4096 }
    ensures { result ≡ cell_at (shape_of header.volume) i }
{
    let at = i as u64;
    let c = header.corner_of((at / CHUNK_CELLS) as u32);
    let within = at % CHUNK_CELLS;
    let x = c.x + within % CHUNK;
    let y = c.y + within / CHUNK % CHUNK;
    let z = c.z + within / (CHUNK * CHUNK);
    header.volume.origin.offset(x as i32, y as i32, z as i32)
}

impl Solids {
    // The start of a walk. Rules out a walk that leaves out the first slot, and one that starts at the end.
    pub fn new() -> Self
        ensures { result.next ≡ 0 }
    {
        Self { next: 0 }
    }

    // The next occupied cell, if there is one, slots beyond the size included; refuses by 3 and 4. Rules out a walk that gives an empty cell, and one that stops at the size.
    #[tactic(auto, unfolding(crate::specs::Solids::solids_call, crate::specs::Refusal::answer), using(crate::proofs::Solids::ends, crate::proofs::Solids::one_more))]
    pub fn step(self, volume: Volume, cells: &[u16]) -> Result<Option<Solid>, Refusal>
        ensures { solid_answer result ≡ solids_call volume cells.now self.next }
    {
        let stand = volume.view(cells)?;
        let Some(i) = next_solid(stand.cells, self.next) else {
            return Ok(None);
        };
        Ok(Some(Solid {
            cell: cell_at(stand.header, i),
            voxel: Voxel(stand.cells[i]),
            rest: Solids { next: i + 1 },
        }))
    }
}
