// A section of the stand along its axes, and the mask of one of its slices.
ghost use Rattle.std.specs.Prelude.{◌≡◌, true, false, ◌<◌, ◌≤◌, ◌+◌, ◌*◌, ◌-◌, min, length, OnOk};
ghost use Rattle.stand.specs.Answer.{code_of};
ghost use Rattle.stand.specs.Refusal.{first};
ghost use Rattle.stand.specs.Shape.{sections, shape_of, Below};
ghost use Rattle.mesh.specs.Faces.{chunk_rules};
ghost use Rattle.mesh.specs.Part.{cut_at, depth_of};
ghost use Rattle.mesh.specs.Scene.{shape_in};
ghost use Rattle.mesh.specs.Step.{Follows, SliceFilled, SliceIn, grid_of, hop_on, next_outside, part_in, section_cells, stride_on};
ghost use Rattle.mesh.specs.Visible.{empty_beyond};

use crate::Beyond;
use crate::axes::{Side, along, on_axis};
use crate::plane::{Grid, Line, fill_plane};
use crate::scene::{Scene, Section};
use stand::Axes;
use stand::volume::CHUNK;
use stand::volume::formed::Formed;
use stand::volume::refusal::Refusal;
use stand::volume::shape::{Point, counts, levels};

// Cells in one chunk.
// Kept: a usize, for indices; `CHUNK_CELLS as usize` is no plainer.
const CELLS: usize = 4_096;

// What lies one step on from a slice: a slice of a section; outside, where all is empty; or what hides.
#[derive(Clone, Copy)]
pub enum Next {
    At { chunk: usize, slice: usize },
    Open,
    Shut,
}

// Whether there is such a section; refuses by 7.
#[tactic(auto, unfolding(stand::specs::Refusal::first))]
pub(crate) fn check_chunk(header: Formed, chunk: usize) -> Result<(), Refusal>
    ensures code { code_of result ≡ first (chunk_rules header.volume chunk) }
    ensures inside { OnOk result (chunk < sections (shape_of header.volume)) }
{
    if header.chunk_total() <= chunk as u64 {
        return Err(Refusal::NoSuchChunk);
    }
    Ok(())
}

// How far apart the indices of neighbouring cells of a section are along an axis.
// Kept: here and in `hop_on` an axis is its number, as axes.rt says.
fn stride_on(a: usize) -> usize
    ensures { result ≡ stride_on a }
{
    along(a, 1, 16, 256)
}

// The same of neighbouring sections.
fn hop_on(k: Point, a: usize) -> u64
    requires { k.x * k.y < 4294967296 }
    ensures { result ≡ hop_on k a }
{
    along(a, 1, k.x, k.x * k.y)
}

// The cells of a section along an axis, cut short by the size.
fn cut(size: u64, from: u64) -> u64
    ensures { result ≡ min 16 (size - from) }
{
    CHUNK.min(size.saturating_sub(from))
}

// The cells along each axis of the section at a corner. Rules out those that the size cuts off.
#[tactic(auto, unfolding(stand::specs::Shape::shape_of))]
pub(crate) fn cut_at(header: Formed, corner: Point) -> Point
    ensures { result ≡ cut_at (shape_of header.volume) corner }
{
    let n = counts(header.volume.size);
    Point {
        x: cut(n.x, corner.x),
        y: cut(n.y, corner.y),
        z: cut(n.z, corner.z),
    }
}

// A section of a stand. Rules out another one's place, and two axes swapped.
pub(crate) fn section_of(scene: Scene, chunk: usize) -> Section
    requires { chunk < sections (shape_in scene) }
    ensures { (result.scene ≡ scene.entry) × (result.chunk ≡ chunk) }
{
    // Kept: a name for a field that is read four times below.
    let header = scene.stand.header;
    let o = levels(header.volume.origin);
    let corner = header.corner_of(chunk as u32);
    Section {
        scene,
        chunk,
        low: Point {
            x: o.x + corner.x,
            y: o.y + corner.y,
            z: o.z + corner.z,
        },
        count: cut_at(header, corner),
        place: Point {
            x: corner.x / CHUNK,
            y: corner.y / CHUNK,
            z: corner.z / CHUNK,
        },
        chunks: counts(header.volume.chunks),
    }
}

// What lies outside the stand. Rules out an outside that shows a face against the rule.
fn outside(beyond: Beyond) -> Next
    ensures { result ≡ next_outside (empty_beyond beyond) }
{
    match beyond {
        Beyond::Solid => Next::Shut,
        Beyond::Empty => Next::Open,
    }
}

// One step up from a slice.
// Kept: two functions: up ends at a section's last slice and at the last level, down at 0; one by a sign would test both. `Follows` is the promise of both and of the one that picks; the slice's bound is asked where section, side and slice meet.
fn next_up(c: Section, side: Side, slice: usize) -> Next
    requires { (slice < depth_of (part_in c) side.number) × (side.up ≡ true) }
    ensures { Follows c.entry side.number slice result }
{
    // Kept: a name for a field of a field, read more than twice below.
    let normal = side.axes.normal;
    if slice as u64 + 1 < on_axis(c.count, normal) {
        return Next::At {
            chunk: c.chunk,
            slice: slice + 1,
        };
    }
    if on_axis(c.place, normal) + 1 < on_axis(c.chunks, normal) {
        return Next::At {
            chunk: c.chunk + hop_on(c.chunks, normal) as usize,
            slice: 0,
        };
    }
    if on_axis(c.low, normal) + slice as u64 == u32::MAX as u64 {
        return Next::Shut;
    }
    outside(c.scene.beyond)
}

// One step down from a slice.
fn next_down(c: Section, side: Side, slice: usize) -> Next
    requires { (slice < depth_of (part_in c) side.number) × (side.up ≡ false) }
    ensures { Follows c.entry side.number slice result }
{
    if 0 < slice {
        return Next::At {
            chunk: c.chunk,
            slice: slice - 1,
        };
    }
    // Kept: a name for a field of a field, read more than twice below.
    let normal = side.axes.normal;
    if 0 < on_axis(c.place, normal) {
        return Next::At {
            chunk: c.chunk - hop_on(c.chunks, normal) as usize,
            slice: 15,
        };
    }
    if on_axis(c.low, normal) == 0 {
        return Next::Shut;
    }
    outside(c.scene.beyond)
}

// What lies one step on from a slice. Rules out a step that wraps at the ends of i32, and the outside where a section follows.
// Kept: one test of two ways; a closure for each would be the two functions again.
fn next_of(c: Section, side: Side, slice: usize) -> Next
    requires { slice < depth_of (part_in c) side.number }
    ensures { Follows c.entry side.number slice result }
{
    if side.up {
        return next_up(c, side, slice);
    }
    next_down(c, side, slice)
}

fn grid_of(count: Point, axes: Axes) -> Grid
    ensures { result ≡ grid_of count axes }
{
    Grid {
        normal: stride_on(axes.normal),
        first: stride_on(axes.first),
        second: stride_on(axes.second),
        w: on_axis(count, axes.first) as usize,
        h: on_axis(count, axes.second) as usize,
    }
}

// The cells of slice t of section k.
fn line_of(cells: &[u16], k: usize, at: usize) -> Line
    requires { k * 4096 + 4096 ≤ length cells.now }
    ensures { (result.cells.now ≡ section_cells cells.now k) × (result.at ≡ at) }
{
    let from = k * CELLS;
    Line {
        cells: &cells[from..from + CELLS],
        at,
    }
}

// The mask of one slice, from this plane and the next one; 0 says that nothing is visible.
pub(crate) fn fill_slice(
    mask: &mut [u16],
    to: usize,
    pitch: usize,
    c: Section,
    side: Side,
    slice: usize,
) -> u16
    requires { SliceIn mask.old c side.number slice to pitch }
    ensures { SliceFilled c.entry side.number slice to pitch mask.old mask.new result }
{
    // Kept: a name for a field of a field of a field, read twice below.
    let cells = c.scene.stand.cells;
    let g = grid_of(c.count, side.axes);
    let next = match next_of(c, side, slice) {
        Next::At { chunk, slice } => Some(line_of(cells, chunk, slice * g.normal)),
        Next::Open => None,
        Next::Shut => return 0,
    };
    let here = line_of(cells, c.chunk, slice * g.normal);
    fill_plane(mask, to, pitch, g, here, next)
}
