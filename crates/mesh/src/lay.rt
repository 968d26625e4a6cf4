// The visible finishes of one slice of a section, laid into a mask, from which `Slice::claim` takes the panels.
ghost use Rattle.std.specs.Prelude.{◌≡◌, ◌≤◌};
ghost use Rattle.stand.specs.Answer.{answer_of};
ghost use Rattle.stand.specs.Sides.{side_number};
ghost use Rattle.mesh.specs.Lay.{laid_mask, slice_call, slice_of, sliced_of};
ghost use Rattle.mesh.specs.Part.{largest_side};
ghost use Rattle.mesh.specs.Scene.{look_in, open_in, shape_in};
ghost use Rattle.mesh.specs.Tiles.{Cleared, part_of};
ghost use Rattle.mesh.specs.Visible.{empty_beyond};

use crate::Beyond;
use crate::axes::{on_axis, side_of, to_axes};
use crate::part::check_chunk;
use crate::scene::{Part, Scene};
use crate::slice::{Slice, cell_up};
use crate::tiles::{fill_part, largest, section_part};
use stand::Face;
use stand::volume::Volume;
use stand::volume::refusal::Refusal;
use stand::volume::shape::Point;

// A slice of a part laid over a mask of zeros, and where it lies; past the depth one without slots, at the lowest cell.
// Kept: `Cleared` is asked here and by each function that fills the mask, since it speaks of a mask lent as `&mut`, which no Copy struct beside it can hold.
fn lay_slice(mask: &mut [u16], p: Part, face: Face, slice: usize) -> Slice
    requires { Cleared (largest_side (part_of p)) mask.old }
    ensures lies { result ≡ slice_of (shape_in p.entry.scene) (part_of p.entry) face slice }
    ensures laid { mask.new ≡ laid_mask (open_in p.entry.scene) (shape_in p.entry.scene) (look_in p.entry.scene) (part_of p.entry) (side_number face) slice mask.old }
{
    let side = side_of(face);
    // Kept: a name for a field that is read four times below.
    let axes = side.axes;
    if on_axis(p.count, axes.normal) <= slice as u64 {
        let cell = cell_up(p.low, Point { x: 0, y: 0, z: 0 });
        return Slice {
            cell,
            face,
            width: 0,
            height: 0,
        };
    }
    fill_part(mask, p, side, slice);
    Slice {
        cell: cell_up(p.low, to_axes(axes.normal, slice as u64, 0, 0)),
        face,
        width: on_axis(p.count, axes.first),
        height: on_axis(p.count, axes.second),
    }
}

// Lays a slice of a section into a mask; refuses by 3, 4, 7 and 10. Rules out finishes that a face does not show, and what an earlier slice left.
// Kept: the mask is tested and wiped as in `mesh_part`, four lines; a function for them would be those and a contract for refused and wiped.
pub fn chunk_slice(
    cells: &[u16],
    v: Volume,
    chunk: usize,
    face: Face,
    slice: usize,
    beyond: Beyond,
    mask: &mut [u16],
) -> Result<Slice, Refusal>
    ensures { sliced_of (answer_of result) mask.new ≡ slice_call v cells.now chunk face slice (empty_beyond beyond) mask.old }
{
    let stand = v.view(cells)?;
    check_chunk(stand.header, chunk)?;
    let p = section_part(Scene { stand, beyond }, chunk);
    let want = largest(p.count) as usize;
    if mask.len() < want {
        return Err(Refusal::MaskTooShort);
    }
    mask[..want].fill(0);
    Ok(lay_slice(mask, p, face, slice))
}
