// Panels of a part, slice by slice and side by side.
ghost use Rattle.std.specs.Prelude.{◌≡◌, ◌<◌, ◌≤◌, ◌^◌};
ghost use Rattle.mesh.specs.Frame.{Lies, frame_of};
ghost use Rattle.mesh.specs.Listed.{Listed};
ghost use Rattle.mesh.specs.Panels.{part_panels, side_panels, slice_panels};
ghost use Rattle.mesh.specs.Part.{depth_of, largest_side};
ghost use Rattle.mesh.specs.Scene.{look_in, open_in, shape_in};
ghost use Rattle.mesh.specs.Tiles.{Cleared, part_of, side_slots};

use crate::axes::{Side, on_axis, side_at};
use crate::scan::{Frame, scan_mask};
use crate::scene::Part;
use crate::tiles::fill_part;

// Where a slice lies.
// Kept: that the slice is below the depth is asked here and below, where part, side and slice meet; of a struct of them a new one would be made for each slice.
fn frame_in(p: Part, side: Side, slice: usize) -> Frame
    requires { slice < depth_of (part_of p) side.number }
    ensures { (result ≡ frame_of (shape_in p.entry.scene) (part_of p.entry) side.number slice) × Lies result }
{
    // Kept: a name for a field that is read six times below.
    let axes = side.axes;
    Frame {
        side: side.number,
        axes,
        normal: on_axis(p.low, axes.normal) + slice as u64,
        first: on_axis(p.low, axes.first),
        second: on_axis(p.low, axes.second),
        width: on_axis(p.count, axes.first) as usize,
        height: on_axis(p.count, axes.second) as usize,
    }
}

// The panels of one slice, written from number `count` on; the mask is left as it was.
// Kept: `Cleared` and `Listed`, here and below, speak of the mask and list lent, before and after, which no Copy struct can hold.
fn mesh_slice(
    mask: &mut [u16],
    p: Part,
    side: Side,
    slice: usize,
    list: &mut [i32],
    count: usize,
) -> usize
    requires cleared { Cleared (side_slots p side.number) mask.old }
    requires slice { slice < depth_of (part_of p) side.number }
    requires few { count ≤ 2 ^ 62 }
    ensures { Listed (slice_panels (open_in p.entry.scene) (shape_in p.entry.scene) (look_in p.entry.scene) (part_of p.entry) side.number slice) mask.old mask.new list.old list.new count result }
{
    if fill_part(mask, p, side, slice) == 0 {
        return count;
    }
    scan_mask(mask, frame_in(p, side, slice), list, count)
}

// The panels of one side.
// Kept: one loop over slices and one over sides, each with its own order in the list; one function would hold both loops.
fn mesh_side(mask: &mut [u16], p: Part, side: Side, list: &mut [i32], count: usize) -> usize
    requires cleared { Cleared (side_slots p side.number) mask.old }
    requires few { count ≤ 2 ^ 61 }
    ensures { Listed (side_panels (open_in p.entry.scene) (shape_in p.entry.scene) (look_in p.entry.scene) (part_of p.entry) side.number (depth_of (part_of p.entry) side.number)) mask.old mask.new list.old list.new count result }
{
    let mut made = count;
    for slice in 0..on_axis(p.count, side.axes.normal) as usize {
        made = mesh_slice(mask, p, side, slice, list, made);
    }
    made
}

// The panels of a part, written from the list's start.
pub(crate) fn mesh_sides(mask: &mut [u16], p: Part, list: &mut [i32]) -> usize
    requires { Cleared (largest_side (part_of p)) mask.old }
    ensures { Listed (part_panels (open_in p.entry.scene) (shape_in p.entry.scene) (look_in p.entry.scene) (part_of p.entry)) mask.old mask.new list.old list.new 0 result }
{
    let mut made = 0;
    for number in 0..6 {
        made = mesh_side(mask, p, side_at(number), list, made);
    }
    made
}
