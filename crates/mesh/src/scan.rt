// The scan of a slice's mask: its rectangles are claimed in order and written as panels.
ghost use Rattle.std.specs.Prelude.{◌≡◌, ◌+◌, ◌<◌, ◌≤◌, length};
ghost use Rattle.mesh.specs.Axes.{put_along};
ghost use Rattle.mesh.specs.Frame.{PutPre, RowPre, ScanPost, ScanPre, StepPost, StepPre, Wrote, quad_from};
ghost use Rattle.mesh.specs.Quad.{put_quad};
ghost use Rattle.mesh.specs.Scan.{fresh, row_to};

use crate::claim::{Rect, claim_at};
use crate::stretch::{list_seen, seen_from, stretch_end};
use arith::level::from_level;
use stand::Axes;

// Where a slice lies: its side and that side's axes, the levels of its lowest cell along normal, first and second, and its slots along first and second.
// Kept: the side is its number, as a panel stores it; and not one with `Slice`, which has a cell and a face where the scan counts levels along axes.
#[derive(Clone, Copy)]
pub struct Frame {
    pub side: usize,
    pub axes: Axes,
    pub normal: u64,
    pub first: u64,
    pub second: u64,
    pub width: usize,
    pub height: usize,
}

// The next slot of a row, and the panels so far.
#[derive(Clone, Copy)]
struct Turn {
    next: usize,
    count: usize,
}

// k along the normal, u along first, v along second: three numbers of a panel, from `at` on.
fn put_along(panel: &mut [i32], axes: Axes, at: usize, k: i32, u: i32, v: i32)
    requires { (at + 3 ≤ length panel.old) × (axes.normal < 3) × (axes.first < 3) × (axes.second < 3) }
    ensures { panel.new ≡ put_along panel.old axes at k u v }
{
    panel[at + axes.normal] = k;
    panel[at + axes.first] = u;
    panel[at + axes.second] = v;
}

// Panel number `k` of the list, if the list has room for it.
// Kept: eight numbers in a flat list, as the C interface lends it; the count stands beside the list, here and below, since it goes on past the list's end.
fn put_quad(out: &mut [i32], k: usize, f: Frame, r: Rect)
    requires { PutPre f r }
    ensures { out.new ≡ put_quad out.old k (quad_from f r) }
{
    if out.len() / 8 <= k {
        return;
    }
    let a = from_level(f.normal);
    let b = from_level(f.first + r.u as u64);
    let c = from_level(f.second + r.v as u64);
    let panel = &mut out[k * 8..k * 8 + 8];
    put_along(panel, f.axes, 0, a, b, c);
    panel[3] = f.side as i32;
    panel[4] = i32::from(r.value);
    put_along(panel, f.axes, 5, 1, r.run as i32, r.rows as i32);
}

// What slot (u, v), at `at`, adds: nothing where it is 0, which a list of what is seen does not rule out.
// Kept: mask, list and count stand apart, here to `mesh_side`: of a struct of them each function would promise besides that the lists lent are the same ones.
fn step_at(
    mask: &mut [u16],
    f: Frame,
    u: usize,
    v: usize,
    at: usize,
    out: &mut [i32],
    count: usize,
) -> Turn
    requires { StepPre (length mask.old) f u v at count }
    ensures { StepPost f u v mask.old mask.new out.old out.new count result }
{
    if mask[at] == 0 {
        return Turn { next: u + 1, count };
    }
    let r = claim_at(mask, f.width, f.height, u, v, at);
    put_quad(out, count, f, r);
    Turn {
        next: u + r.run,
        count: count + 1,
    }
}

// Claims what starts in row v, the slots from `row` on, and answers the next panel number. Slots that are 0 are passed over, and so
// is the run of a rectangle: it is 0 now. `seen` is for the stretches, and may hold anything.
// Kept: the loop steps over runs and stretches, so that no `for` counts its slots.
fn scan_row(
    mask: &mut [u16],
    f: Frame,
    v: usize,
    row: usize,
    out: &mut [i32],
    count: usize,
    seen: &mut [usize; 16],
) -> usize
    requires { RowPre (length mask.old) f v row count }
    ensures { Wrote f (row_to f.width f.height v (fresh mask.old) f.width) mask.new out.old out.new count result }
{
    let mut n = count;
    let mut from = 0;
    let mut to = 0;
    let mut u = 0;
    while u < f.width {
        if to <= u {
            from = u;
            to = stretch_end(u, f.width);
            list_seen(seen, mask, row, from, to);
        } else {
            let t = step_at(mask, f, u, v, row + u, out, n);
            n = t.count;
            u = t.next;
        }
        u = seen_from(seen, from, to, u);
    }
    n
}

// Claims all rectangles of a mask, in order, and writes them from panel number `count` on. The answer is the next number.
// By itself, since its loop then keeps the registers: a checkered section takes 104 µs, and 110 where it is a part of the meshing.
#[inline(never)]
pub(crate) fn scan_mask(mask: &mut [u16], f: Frame, out: &mut [i32], count: usize) -> usize
    requires { ScanPre (length mask.old) f count }
    ensures { ScanPost f mask.old mask.new out.old out.new count result }
{
    let mut seen = [0usize; 16];
    let mut n = count;
    for v in 0..f.height {
        n = scan_row(mask, f, v, v * f.width, out, n, &mut seen);
    }
    n
}
