// The walks: over the chunks changed since a mark, and over the occupied cells.
// Kept: a call and a struct for each step, with a code and `given` beside the value, and lists one by one, since C walks by them.
ghost use Rattle.std.specs.Prelude.{◌≡◌};
ghost use Rattle.stand.specs.Feed.{changed_since, changed_step};
ghost use Rattle.stand.specs.Lent.{solid_answer, step_answer};
ghost use Rattle.stand.specs.Solids.{solids_call};
ghost use Rattle.exports.specs.Reply.{replied};
ghost use Rattle.exports.specs.Walk.{no_chunk, no_solid, replied_chunk, replied_solid};

use crate::reply::Number;
use stand::Cell;
use stand::volume::Volume;
use stand::volume::feed::{Changed, Changes};
use stand::volume::refusal::Refusal;
use stand::volume::solids::{Solid, Solids};

// A changed chunk, and the generation to go on from; `given` is 0 at the end.
#[repr(C)]
#[derive(Clone, Copy, Default)]
pub struct ChunkGiven {
    pub code: u32,
    pub given: u32,
    pub chunk: u64,
    pub next: u64,
}

// An occupied cell, its finish, and the index to go on from; `given` is 0 at the end.
#[repr(C)]
#[derive(Clone, Copy, Default)]
pub struct SolidGiven {
    pub code: u32,
    pub given: u32,
    pub cell: Cell,
    pub finish: u32,
    pub next: u64,
}

// Kept: zeros beside a code, here and in `no_solid`, since C has no Option; two, since C has two structs.
fn no_chunk(code: u32) -> ChunkGiven
    ensures { result ≡ no_chunk code }
{
    ChunkGiven {
        code,
        ..ChunkGiven::default()
    }
}

// A step of the walk over changed chunks. Rules out a chunk beside a refusal, and the end as a chunk.
impl From<Result<Option<Changed>, Refusal>> for ChunkGiven {
    ghost from_gives = { λ a r. r ≡ replied_chunk (step_answer a) };

    fn from(a: Result<Option<Changed>, Refusal>) -> ChunkGiven {
        match a {
            Ok(Some(c)) => ChunkGiven {
                code: 0,
                given: 1,
                chunk: c.chunk,
                next: c.generation,
            },
            Ok(None) => no_chunk(0),
            Err(r) => no_chunk(r.number()),
        }
    }
}

fn no_solid(code: u32) -> SolidGiven
    ensures { result ≡ no_solid code }
{
    SolidGiven {
        code,
        ..SolidGiven::default()
    }
}

// A step of the walk over occupied cells. Rules out a cell beside a refusal, and the end as a cell.
impl From<Result<Option<Solid>, Refusal>> for SolidGiven {
    ghost from_gives = { λ a r. r ≡ replied_solid (solid_answer a) };

    fn from(a: Result<Option<Solid>, Refusal>) -> SolidGiven {
        match a {
            Ok(Some(c)) => SolidGiven {
                code: 0,
                given: 1,
                cell: c.cell,
                finish: u32::from(c.voxel.0),
                next: c.rest.next as u64,
            },
            Ok(None) => no_solid(0),
            Err(r) => no_solid(r.number()),
        }
    }
}

// Where a walk from a mark starts. Rules out "too old" for every mark, and another start than the mark.
pub fn stand_changed_since(volume: Volume, log: &[u32], last: &[u64], mark: u64) -> Number
    ensures { result ≡ replied (changed_since volume log.now last.now mark) }
{
    Number::from(volume.changed_since(Changes { log, last }, mark))
}

// The next changed section. Rules out an end before the first section, and the same section again.
pub fn stand_changed_step(volume: Volume, log: &[u32], last: &[u64], next: u64) -> ChunkGiven
    ensures { result ≡ replied_chunk (changed_step volume log.now last.now next) }
{
    ChunkGiven::from(volume.changed_step(Changes { log, last }, next))
}

// The next occupied cell. Rules out an empty cell, and an end where one is left.
pub fn stand_solid_step(volume: Volume, cells: &[u16], next: usize) -> SolidGiven
    ensures { result ≡ replied_solid (solids_call volume cells.now next) }
{
    SolidGiven::from(Solids { next }.step(volume, cells))
}
