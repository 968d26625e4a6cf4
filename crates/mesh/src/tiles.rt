// The part meshed, as a box of sections, and the mask of one of its slices.
ghost use Rattle.std.specs.Prelude.{◌≡◌, ◌<◌, ◌+◌, ◌*◌, max};
ghost use Rattle.stand.specs.Shape.{Below, max_chunks, section_at, sections};
ghost use Rattle.mesh.specs.Part.{depth_of, section_part, whole_part};
ghost use Rattle.mesh.specs.Scene.{shape_in};
ghost use Rattle.mesh.specs.Tiles.{BandFilled, BandIn, Cleared, PartFilled, TileIn, part_of, side_slots, tile_place};

use crate::axes::{Side, on_axis, to_axes};
use crate::part::{fill_slice, section_of};
use crate::scene::{Part, Scene};
use stand::volume::shape::{Point, counts, levels};

// The part of one section.
// Kept: not one with `whole_part`: but for the scene and the chunks no field is found in the same way.
pub(crate) fn section_part(scene: Scene, chunk: usize) -> Part
    requires { chunk < sections (shape_in scene) }
    ensures { (result.scene ≡ scene.entry) × (part_of result ≡ section_part (shape_in scene.entry) chunk) }
{
    let c = section_of(scene, chunk);
    Part {
        scene,
        low: c.low,
        count: c.count,
        place: c.place,
        across: Point { x: 1, y: 1, z: 1 },
        chunks: c.chunks,
    }
}

// The part of the whole stand.
pub(crate) fn whole_part(scene: Scene) -> Part
    ensures { (result.scene ≡ scene.entry) × (part_of result ≡ whole_part (shape_in scene.entry)) }
{
    let v = scene.stand.header.volume;
    let chunks = counts(v.chunks);
    Part {
        scene,
        low: levels(v.origin),
        count: counts(v.size),
        place: Point { x: 0, y: 0, z: 0 },
        across: chunks,
        chunks,
    }
}

// The most slots that a slice of n cells along each axis has.
pub(crate) fn largest(n: Point) -> u64
    requires { Below (16 * max_chunks + 1) n }
    ensures { result ≡ max (n.x * n.y) (max (n.x * n.z) (n.y * n.z)) }
{
    (n.x * n.y).max((n.x * n.z).max(n.y * n.z))
}

// The index of the section at d along the side's normal, a along its first axis, b along its second.
fn tile_at(p: Part, side: Side, d: u64, a: u64, b: u64) -> usize
    requires { TileIn p side.number d a b }
    ensures { result ≡ section_at p.entry.chunks (tile_place p.entry side.number d a b) }
{
    let t = to_axes(side.axes.normal, d, a, b);
    let x = p.place.x + t.x;
    let y = p.place.y + t.y;
    let z = p.place.z + t.z;
    let row = z * p.chunks.y + y;
    (row * p.chunks.x + x) as usize
}

// The mask of the sections at b along the second axis.
// Kept: a band is a loop over sections and `fill_part` one over bands; one function would hold both loops.
fn fill_band(mask: &mut [u16], p: Part, side: Side, slice: usize, b: usize) -> u16
    requires { BandIn mask.old p side.number slice b }
    ensures { BandFilled p.entry side.number slice b mask.old mask.new result }
{
    let w = on_axis(p.count, side.axes.first) as usize;
    let to = b * 16 * w;
    let mut any = 0;
    for a in 0..on_axis(p.across, side.axes.first) as usize {
        let chunk = tile_at(p, side, (slice / 16) as u64, a as u64, b as u64);
        let c = section_of(p.scene, chunk);
        any |= fill_slice(mask, to + a * 16, w, c, side, slice % 16);
    }
    any
}

// The mask of one slice: section by section. 0 says that nothing is visible.
pub(crate) fn fill_part(mask: &mut [u16], p: Part, side: Side, slice: usize) -> u16
    requires { Cleared (side_slots p side.number) mask.old × (slice < depth_of (part_of p) side.number) }
    ensures { PartFilled p.entry side.number slice mask.old mask.new result }
{
    let mut any = 0;
    for b in 0..on_axis(p.across, side.axes.second) as usize {
        any |= fill_band(mask, p, side, slice, b);
    }
    any
}
