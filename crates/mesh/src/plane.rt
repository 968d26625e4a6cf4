// Planes of a section's part of the cells, and the mask of the faces visible between two of them.
ghost use Rattle.std.specs.Prelude.{◌≡◌, ◌+◌, ◌*◌, ◌^◌, ◌<◌, ◌≤◌, cond, length, Some};
ghost use Rattle.stand.specs.Cells.{is_empty};
ghost use Rattle.mesh.specs.Plane.{Filled, FilledRow, LineIn, MaskIn, NextIn, NextPlaneIn, PlaneIn, Shows, Sixteen, plane_shown, row_shown};

// How the cells of a slice lie within their section: steps along the three axes, and cells along first and second.
#[derive(Clone, Copy)]
pub struct Grid {
    pub normal: usize,
    pub first: usize,
    pub second: usize,
    pub w: usize,
    pub h: usize,
}

// Cells of a section, from `at` on.
#[derive(Clone, Copy)]
pub struct Line<'a> {
    pub cells: &'a [u16],
    pub at: usize,
}

impl<'a> Line<'a> {
    // The same cells from `by` cells further on.
    fn on(self, by: usize) -> Self
        requires { self.at + by < 2 ^ 64 }
        ensures { (result.cells ≡ self.entry.cells) × (result.at ≡ self.entry.at + by) }
    {
        Line {
            at: self.at + by,
            ..self
        }
    }
}

// What a cell shows: itself where the next one is empty, else 0. By a mask of bits and no branch, since in a random section the test goes
// either way.
fn seen(cell: u16, next: u16) -> u16
    ensures { result ≡ cond (is_empty next) cell 0 }
{
    let keep: u16 = if next == 0 { u16::MAX } else { 0 };
    cell & keep
}

// What sixteen cells side by side show.
// Kept: sixteen slots of their own type, apart from `lay_row`, which walks the mask: of a fixed count and no mask they are seen at once.
fn see_row(row: &mut [u16; 16], here: Line, next: Line)
    requires here_in { here.at + 16 ≤ length here.cells.now }
    requires next_in { next.at + 16 ≤ length next.cells.now }
    ensures { Sixteen here.entry next.entry row.new }
{
    for u in 0..16 {
        row[u] = seen(here.cells[here.at + u], next.cells[next.at + u]);
    }
}

// w slots into the mask: what is shown at each, by how many cells it lies on, `step` more for each. The answer is the bits that any of
// them has. The cells are counted along, since LLVM loads several slots' at once where it sees a sum, and not where it sees a product.
// Kept: the mask and a place in it, as the C interface lends it; the bits that it answers are or-ed without a branch, and 0 says that none is visible, here and up to `fill_part`.
fn lay_row<F: Fn(usize) -> u16>(mask: &mut [u16], to: usize, w: usize, step: usize, shows: F) -> u16
    requires room { to + w ≤ length mask.old }
    requires fits { w * step < 2 ^ 64 }
    requires callable { (u : _) → u < w → F.pre shows (u * step) }
    ensures { (f : _) → Shows (F.post shows) w step f → FilledRow mask.old mask.new result to w (λ u v. f u) }
{
    let mut any = 0;
    let mut by = 0;
    for u in 0..w {
        let x = shows(by);
        mask[to + u] = x;
        any |= x;
        by += step;
    }
    any
}

// A row of sixteen cells side by side: seen apart from the mask, so that it is seen at once.
fn full_row(mask: &mut [u16], to: usize, here: Line, next: Line) -> u16
    requires room { to + 16 ≤ length mask.old }
    requires here_in { here.at + 16 ≤ length here.cells.now }
    requires next_in { next.at + 16 ≤ length next.cells.now }
    ensures { FilledRow mask.old mask.new result to 16 (row_shown here.entry (Some next.entry) 1) }
{
    let mut row = [0u16; 16];
    see_row(&mut row, here, next);
    lay_row(mask, to, 16, 1, |u| row[u])
}

// A row of w cells that lie a step along first apart; with no next plane all show.
// Kept: the test for sixteen side by side stays, since it picks the row that is seen at once; a closure would be picked by the same test.
fn fill_row(mask: &mut [u16], to: usize, g: Grid, here: Line, next: Option<Line>) -> u16
    requires room { to + g.w ≤ length mask.old }
    requires near { (g.w ≤ 16) × (g.first ≤ 256) }
    requires here_in { LineIn here g.first g.w }
    requires next_in { NextIn next g.first g.w }
    ensures { FilledRow mask.old mask.new result to g.w (row_shown here.entry next.entry g.first) }
{
    let step = g.first;
    let Some(next) = next else {
        return lay_row(mask, to, g.w, step, |by| here.cells[here.at + by]);
    };
    if step == 1 && g.w == 16 {
        return full_row(mask, to, here, next);
    }
    lay_row(mask, to, g.w, step, |by| {
        seen(here.cells[here.at + by], next.cells[next.at + by])
    })
}

// The mask of the faces visible between two planes; with no next one all show.
pub(crate) fn fill_plane(
    mask: &mut [u16],
    to: usize,
    pitch: usize,
    g: Grid,
    here: Line,
    next: Option<Line>,
) -> u16
    requires mask_in { MaskIn to pitch g.w g.h (length mask.old) }
    requires near { (g.w ≤ 16) × (g.first ≤ 256) }
    requires here_in { PlaneIn here g }
    requires next_in { NextPlaneIn next g }
    ensures { Filled mask.old mask.new result to pitch g.w g.h (plane_shown here.entry next.entry g) }
{
    let mut any = 0;
    for v in 0..g.h {
        let from = v * g.second;
        let row = fill_row(
            mask,
            to + v * pitch,
            g,
            here.on(from),
            next.map(|n| n.on(from)),
        );
        any |= row;
    }
    any
}
