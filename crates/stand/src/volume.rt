// The stand's header, which goes by value; its storage is lent by the caller.
ghost use Rattle.std.specs.Prelude.{◌≡◌};
ghost use Rattle.stand.specs.Extents.{extent_from};

use crate::Cell;

pub mod edit;
pub mod feed;
pub mod fill;
pub mod formed;
pub mod hash;
pub mod lent;
pub mod opening;
pub mod read;
pub mod reader;
pub mod refusal;
pub mod shape;
pub mod solids;
pub mod storage;
pub mod view;

// Cells along one edge of a chunk. A chunk is document 01's section.
pub const CHUNK: u64 = 16;

// Cells in one chunk.
// Kept: mesh has the number as a usize, for indices; a cast of this one is no plainer.
pub const CHUNK_CELLS: u64 = 4_096;

// The most chunks that a volume may have.
pub const MAX_CHUNKS: u64 = 65_536;

// Three numbers along the axes: a size in cells, or a count of chunks.
// Kept: the C interface tells extents from cells, of the same fields.
#[repr(C)]
#[derive(Clone, Copy, Default)]
pub struct Extent {
    pub x: i32,
    pub y: i32,
    pub z: i32,
}

// A cell's three numbers as a size. Rules out two axes swapped, and an axis dropped.
impl From<Cell> for Extent {
    ghost from_gives = { λ c e. e ≡ extent_from c };

    fn from(c: Cell) -> Extent {
        Extent {
            x: c.x,
            y: c.y,
            z: c.z,
        }
    }
}

// Document 01's header of a stand.
#[repr(C)]
#[derive(Clone, Copy, Default)]
pub struct Volume {
    // The lowest cell.
    pub origin: Cell,
    // Extent in chunks: document 01's sections.
    pub chunks: Extent,
    // Extent in cells.
    pub size: Extent,
    // How many changes the volume has seen.
    pub generation: u64,
    // How many cells are occupied, modulo 2^64.
    pub solid: u64,
}
