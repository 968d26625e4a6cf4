// Panels claimed one at a time, from a mask that the caller lends.
ghost use Rattle.std.specs.Prelude.{◌≡◌, ◌+◌, ◌^◌};
ghost use Rattle.arith.specs.Level.{number_of};
ghost use Rattle.stand.specs.Cells.{cell_of};
ghost use Rattle.stand.specs.Shape.{Below};
ghost use Rattle.mesh.specs.Slice.{PanelPre, claim_call, held_extent, outcome_of, quad_in, shifted};

use crate::Quad;
use crate::axes::to_axes;
use crate::claim::{Rect, claim_at, next_seen};
use arith::level::from_level;
use stand::volume::Extent;
use stand::volume::shape::{Point, levels};
use stand::{Cell, Face, Voxel};

// A slice: its lowest cell, its side, and its slots along first and second.
// Kept: not one with `Frame`: this is what a caller holds and hands in again, a cell and a face, as the C interface tells them.
#[derive(Clone, Copy)]
pub struct Slice {
    pub cell: Cell,
    pub face: Face,
    pub width: u64,
    pub height: u64,
}

// A panel that was claimed, and the cursor to claim the next one from.
#[derive(Clone, Copy)]
pub struct Claimed {
    pub quad: Quad,
    pub next: usize,
}

// The cell d up from levels l, saturating.
// Kept: one call for each axis, since a struct of three has no loop over its fields; `Below`, here, in `shift`, `hold` and `largest`, has bounds that Point cannot hold.
pub(crate) fn cell_up(l: Point, d: Point) -> Cell
    requires { Below (2 ^ 63) l × Below (2 ^ 63) d }
    ensures { result ≡ cell_of (number_of (l.x + d.x)) (number_of (l.y + d.y)) (number_of (l.z + d.z)) }
{
    Cell {
        x: from_level(l.x + d.x),
        y: from_level(l.y + d.y),
        z: from_level(l.z + d.z),
    }
}

// A cell moved by whole steps, saturating. By levels, since a step may pass i32.
fn shift(c: Cell, d: Point) -> Cell
    requires { Below (2 ^ 63) d }
    ensures { result ≡ shifted c d }
{
    cell_up(levels(c), d)
}

// Extents; one past i32 is held to 2,147,483,647.
// Kept: no From, which can require nothing, and both types are of another crate.
fn hold(d: Point) -> Extent
    requires { Below (2 ^ 63) d }
    ensures { result ≡ held_extent d }
{
    let zero = Point {
        x: 2147483648,
        y: 2147483648,
        z: 2147483648,
    };
    Extent::from(cell_up(zero, d))
}

fn panel_of(s: Slice, r: Rect) -> Quad
    requires { PanelPre r }
    ensures { result ≡ quad_in s r }
{
    let normal = s.face.axes().normal;
    Quad {
        cell: shift(s.cell, to_axes(normal, 0, r.u as u64, r.v as u64)),
        face: s.face,
        voxel: Voxel(r.value),
        extent: hold(to_axes(normal, 1, r.run as u64, r.rows as u64)),
    }
}

impl Slice {
    // Claims the next panel from slot number `from` of a mask on; none where only 0 is left, or the mask is shorter than the slice. Rules
    // out a panel that is kept in the mask, a cursor that skips one, and a slice larger than the mask read past its end.
    pub fn claim(self, mask: &mut [u16], from: usize) -> Option<Claimed>
        ensures { outcome_of result mask.new ≡ claim_call self mask.old from }
    {
        let w = self.width as usize;
        let h = self.height as usize;
        if w == 0 || mask.len() / w < h {
            return None;
        }
        let n = h * w;
        let q = next_seen(mask, from, n);
        if n <= q {
            return None;
        }
        let r = claim_at(mask, w, h, q % w, q / w, q);
        Some(Claimed {
            quad: panel_of(self, r),
            next: q + 1,
        })
    }
}
