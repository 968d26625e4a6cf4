// The calls that only read.
ghost use Rattle.std.specs.Prelude.{◌≡◌};
ghost use Rattle.stand.specs.Read.{chunk_of_call, chunk_origin_call, digest_call, entry_call, get_call, is_solid_call, of_header};
ghost use Rattle.stand.specs.Shape.{clamp_cell, inside, last_cell, sections, shape_of};
ghost use Rattle.mesh.specs.Quad.{merged_call};
ghost use Rattle.exports.specs.Reply.{replied, replied_cell, replied_extent, replied_flag};

use crate::reply::{Number, Place, Span};
use mesh::Quad;
use stand::volume::{Extent, Volume};
use stand::{Cell, Face, Voxel};

// The lowest cell. Rules out the highest, and a cell for a header that is refused.
pub fn stand_origin(volume: Volume) -> Place
    ensures { result ≡ replied_cell (of_header volume volume.origin) }
{
    Place::from(volume.origin())
}

// The highest cell. Rules out the lowest, and the cell past it.
pub fn stand_max(volume: Volume) -> Place
    ensures { result ≡ replied_cell (of_header volume (last_cell (shape_of volume))) }
{
    Place::from(volume.max())
}

// The nearest cell of the stand. Rules out the cell given where it is outside, and a refusal of it.
pub fn stand_clamp(volume: Volume, cell: Cell) -> Place
    ensures { result ≡ replied_cell (of_header volume (clamp_cell (shape_of volume) cell)) }
{
    Place::from(volume.clamp(cell))
}

// The lowest cell of a section. Rules out another section's, and a cell past the last section.
pub fn stand_chunk_origin(volume: Volume, chunk: usize) -> Place
    ensures { result ≡ replied_cell (chunk_origin_call volume chunk) }
{
    Place::from(volume.chunk_origin(chunk))
}

// Sections along each axis. Rules out cells along each axis, and 0 with a code of 0.
pub fn stand_chunks(volume: Volume) -> Span
    ensures { result ≡ replied_extent (of_header volume volume.chunks) }
{
    Span::from(volume.chunks())
}

// Cells along each axis. Rules out sections along each axis, and 0 with a code of 0.
pub fn stand_size(volume: Volume) -> Span
    ensures { result ≡ replied_extent (of_header volume volume.size) }
{
    Span::from(volume.size())
}

// How many sections there are. Rules out the sections of one axis, and the occupied cells.
pub fn stand_chunk_count(volume: Volume) -> Number
    ensures { result ≡ replied (of_header volume (sections (shape_of volume))) }
{
    Number::from(volume.chunk_count())
}

// How many cells are occupied. Rules out the generation, and the sections.
pub fn stand_solid_count(volume: Volume) -> Number
    ensures { result ≡ replied (of_header volume volume.solid) }
{
    Number::from(volume.solid_count())
}

// How many changes there were. Rules out the occupied cells, and the generation before.
pub fn stand_generation(volume: Volume) -> Number
    ensures { result ≡ replied (of_header volume volume.generation) }
{
    Number::from(volume.generation())
}

// Whether a cell is inside: 1 or 0. Rules out a code for a cell outside, and 0 for yes.
pub fn stand_contains(volume: Volume, cell: Cell) -> Number
    ensures { result ≡ replied_flag (of_header volume (inside (shape_of volume) cell)) }
{
    Number::from(volume.contains(cell))
}

// Whether a cell is occupied: 1 or 0. Rules out the finish for yes, and a code for a cell outside.
pub fn stand_is_solid(volume: Volume, cells: &[u16], cell: Cell) -> Number
    ensures { result ≡ replied_flag (is_solid_call volume cells.now cell) }
{
    Number::from(volume.is_solid(cells, cell))
}

// What is in a cell. Rules out 0 with a code of 0 for a cell outside, and another cell's finish.
pub fn stand_get(volume: Volume, cells: &[u16], cell: Cell) -> Number
    ensures { result ≡ replied (get_call volume cells.now cell) }
{
    Number::from(volume.get(cells, cell))
}

// The section of a cell. Rules out section 0 for a cell outside, and another order of the axes.
pub fn stand_chunk_of(volume: Volume, cell: Cell) -> Number
    ensures { result ≡ replied (chunk_of_call volume cell) }
{
    Number::from(volume.chunk_of(cell))
}

// The hash of a section. Rules out another section's, and a hash past the last section.
pub fn stand_chunk_hash(volume: Volume, hashes: &[u64], chunk: usize) -> Number
    ensures { result ≡ replied (entry_call volume hashes.now chunk) }
{
    Number::from(volume.chunk_hash(hashes, chunk))
}

// The version of a section. Rules out another section's, and a version past the last section.
pub fn stand_chunk_version(volume: Volume, versions: &[u32], chunk: usize) -> Number
    ensures { result ≡ replied (entry_call volume versions.now chunk) }
{
    Number::from(volume.chunk_version(versions, chunk))
}

// The digest of a stand. Rules out one over other hashes, and one cut to 32 bits.
pub fn stand_digest(volume: Volume, hashes: &[u64]) -> Number
    ensures { result ≡ replied (digest_call volume hashes.now) }
{
    Number::from(volume.digest(hashes))
}

// The faces of a panel. Rules out a product that wraps, and 0 faces with a code of 0.
pub fn stand_merged(extent: Extent) -> Number
    ensures { result ≡ replied (merged_call extent) }
{
    let q = Quad {
        cell: Cell::default(),
        face: Face::East,
        voxel: Voxel::EMPTY,
        extent,
    };
    Number::from(q.merged())
}
