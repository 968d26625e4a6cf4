// The calls that only read.
ghost use Rattle.std.specs.Prelude.{◌≡◌};
ghost use Rattle.stand.specs.Read.{chunk_of_call, chunk_origin_call, digest_call, entry_call, get_call, is_solid_call, of_header};
ghost use Rattle.stand.specs.Shape.{clamp_cell, inside, last_cell, sections, shape_of};
ghost use Rattle.mesh.specs.Quad.{merged_call};
ghost use Rattle.exports.specs.Reply.{replied, replied_cell, replied_extent, replied_flag};

use exports::reply::{Number, Place, Span};
use stand::Cell;
use stand::volume::{Extent, Volume};

#[unsafe(no_mangle)]
pub extern "C" fn stand_origin(volume: Volume) -> Place
    ensures { result ≡ replied_cell (of_header volume volume.origin) }
{
    exports::read::stand_origin(volume)
}

#[unsafe(no_mangle)]
pub extern "C" fn stand_max(volume: Volume) -> Place
    ensures { result ≡ replied_cell (of_header volume (last_cell (shape_of volume))) }
{
    exports::read::stand_max(volume)
}

#[unsafe(no_mangle)]
pub extern "C" fn stand_clamp(volume: Volume, cell: Cell) -> Place
    ensures { result ≡ replied_cell (of_header volume (clamp_cell (shape_of volume) cell)) }
{
    exports::read::stand_clamp(volume, cell)
}

#[unsafe(no_mangle)]
pub extern "C" fn stand_chunk_origin(volume: Volume, chunk: usize) -> Place
    ensures { result ≡ replied_cell (chunk_origin_call volume chunk) }
{
    exports::read::stand_chunk_origin(volume, chunk)
}

#[unsafe(no_mangle)]
pub extern "C" fn stand_chunks(volume: Volume) -> Span
    ensures { result ≡ replied_extent (of_header volume volume.chunks) }
{
    exports::read::stand_chunks(volume)
}

#[unsafe(no_mangle)]
pub extern "C" fn stand_size(volume: Volume) -> Span
    ensures { result ≡ replied_extent (of_header volume volume.size) }
{
    exports::read::stand_size(volume)
}

#[unsafe(no_mangle)]
pub extern "C" fn stand_chunk_count(volume: Volume) -> Number
    ensures { result ≡ replied (of_header volume (sections (shape_of volume))) }
{
    exports::read::stand_chunk_count(volume)
}

#[unsafe(no_mangle)]
pub extern "C" fn stand_solid_count(volume: Volume) -> Number
    ensures { result ≡ replied (of_header volume volume.solid) }
{
    exports::read::stand_solid_count(volume)
}

#[unsafe(no_mangle)]
pub extern "C" fn stand_generation(volume: Volume) -> Number
    ensures { result ≡ replied (of_header volume volume.generation) }
{
    exports::read::stand_generation(volume)
}

#[unsafe(no_mangle)]
pub extern "C" fn stand_contains(volume: Volume, cell: Cell) -> Number
    ensures { result ≡ replied_flag (of_header volume (inside (shape_of volume) cell)) }
{
    exports::read::stand_contains(volume, cell)
}

#[unsafe(no_mangle)]
pub extern "C" fn stand_is_solid(volume: Volume, cells: &[u16], cell: Cell) -> Number
    ensures { result ≡ replied_flag (is_solid_call volume cells.now cell) }
{
    exports::read::stand_is_solid(volume, cells, cell)
}

#[unsafe(no_mangle)]
pub extern "C" fn stand_get(volume: Volume, cells: &[u16], cell: Cell) -> Number
    ensures { result ≡ replied (get_call volume cells.now cell) }
{
    exports::read::stand_get(volume, cells, cell)
}

#[unsafe(no_mangle)]
pub extern "C" fn stand_chunk_of(volume: Volume, cell: Cell) -> Number
    ensures { result ≡ replied (chunk_of_call volume cell) }
{
    exports::read::stand_chunk_of(volume, cell)
}

#[unsafe(no_mangle)]
pub extern "C" fn stand_chunk_hash(volume: Volume, hashes: &[u64], chunk: usize) -> Number
    ensures { result ≡ replied (entry_call volume hashes.now chunk) }
{
    exports::read::stand_chunk_hash(volume, hashes, chunk)
}

#[unsafe(no_mangle)]
pub extern "C" fn stand_chunk_version(volume: Volume, versions: &[u32], chunk: usize) -> Number
    ensures { result ≡ replied (entry_call volume versions.now chunk) }
{
    exports::read::stand_chunk_version(volume, versions, chunk)
}

#[unsafe(no_mangle)]
pub extern "C" fn stand_digest(volume: Volume, hashes: &[u64]) -> Number
    ensures { result ≡ replied (digest_call volume hashes.now) }
{
    exports::read::stand_digest(volume, hashes)
}

#[unsafe(no_mangle)]
pub extern "C" fn stand_merged(extent: Extent) -> Number
    ensures { result ≡ replied (merged_call extent) }
{
    exports::read::stand_merged(extent)
}
