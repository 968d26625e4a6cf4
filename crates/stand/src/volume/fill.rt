// Filling a box.
ghost use Rattle.std.specs.Prelude.{◌≡◌, ◌+◌, ◌*◌, ◌<◌, ◌≤◌};
ghost use Rattle.stand.specs.Edit.{edited_of, set_def};
ghost use Rattle.stand.specs.Fill.{Fillable, Spanned, SpannedSome, below_at, common_of, fill_call, plane_cells, row_cells, set_each, solid_cells};
ghost use Rattle.stand.specs.Lent.{Kept, edit_outcome, stand_in};
ghost use Rattle.stand.specs.Shape.{cell_from, shape_of};

use crate::volume::Volume;
use crate::volume::edit::{Edited, put_at};
use crate::volume::refusal::Refusal;
use crate::volume::shape::{Point, Region, Span, counts, levels, reach_of, slot_at};
use crate::volume::storage::Storage;
use crate::{Cell, Voxel};

impl Span {
    // How many of its cells lie below c, by levels.
    #[tactic(auto, unfolding(crate::specs::Fill::below_at))]
    fn below(self, c: u64) -> u64
        ensures { result ≡ below_at self.low self.count c }
    {
        c.saturating_sub(self.low).min(self.count)
    }

    // Of its cells those from the lower of two coordinates to the higher, both in it, by levels; their first by its distance.
    #[tactic(auto, unfolding(crate::specs::Fill::below_at))]
    fn between(self, a: u64, b: u64) -> Span
        requires { (a < 4294967296) × (b < 4294967296) }
        ensures { Spanned self.low self.count a b result.low result.count }
    {
        let low = self.below(a.min(b));
        let past = self.below(a.max(b) + 1);
        Span {
            low,
            count: past - low,
        }
    }

    // The same, if it has a cell.
    fn some_between(self, a: u64, b: u64) -> Option<Span>
        requires { (a < 4294967296) × (b < 4294967296) }
        ensures { SpannedSome self.low self.count a b result }
    {
        let span = self.between(a, b);
        if span.count == 0 { None } else { Some(span) }
    }
}

// The common part of the box between two corners and the stand, if there is one.
#[tactic(auto, using(crate::proofs::Box::box_laws))]
fn box_of(v: Volume, a: Cell, b: Cell) -> Option<Region>
    ensures { result ≡ common_of (shape_of v) a b }
{
    let s = reach_of(v);
    let p = levels(a);
    let q = levels(b);
    let x = s.x.some_between(p.x, q.x)?;
    let y = s.y.some_between(p.y, q.y)?;
    let z = s.z.some_between(p.z, q.z)?;
    Some(Region {
        low: Point {
            x: x.low,
            y: y.low,
            z: z.low,
        },
        count: Point {
            x: x.count,
            y: y.count,
            z: z.count,
        },
    })
}

// The cell at distances d takes a finish; how many cells changed.
// Kept: `Fillable`, here and in the next three, speaks of a box and of the header and lists that are lent beside it, so that no one type can hold it.
#[tactic(auto, using(crate::proofs::Fill::spot_set))]
fn put_spot(v: &mut Volume, s: &mut Storage, d: Point, finish: u16) -> u64
    requires { Fillable (stand_in v.old s.old) d 1 1 1 }
    ensures put { edited_of result (stand_in v.new s.new) ≡ set_def (stand_in v.old s.old) (cell_from (shape_of v.old) d) finish }
    ensures one { result ≤ 1 }
    ensures kept { Kept s.old s.new }
{
    let i = slot_at(counts(v.chunks), d);
    put_at(v, s, i, finish)
}

// n cells along x from distances p on take a finish; how many cells changed.
// Kept: three loops, one inside the other along x, y and z; one over all cells would divide to find each place.
#[tactic(auto, using(crate::proofs::Fill::loop_laws))]
fn fill_row(v: &mut Volume, s: &mut Storage, p: Point, n: u64, finish: u16) -> u64
    requires { Fillable (stand_in v.old s.old) p n 1 1 }
    ensures put { edited_of result (stand_in v.new s.new) ≡ set_each (edited_of 0 (stand_in v.old s.old)) (row_cells (shape_of v.old) p n) finish }
    ensures most { result ≤ n }
    ensures kept { Kept s.old s.new }
{
    let mut count = 0;
    for i in 0..n {
        let d = Point { x: p.x + i, ..p };
        count += put_spot(v, s, d, finish);
    }
    count
}

// m rows of n cells, along y.
#[tactic(auto, using(crate::proofs::Fill::loop_laws))]
fn fill_plane(v: &mut Volume, s: &mut Storage, p: Point, n: u64, m: u64, finish: u16) -> u64
    requires { Fillable (stand_in v.old s.old) p n m 1 }
    ensures put { edited_of result (stand_in v.new s.new) ≡ set_each (edited_of 0 (stand_in v.old s.old)) (plane_cells (shape_of v.old) p n m) finish }
    ensures most { result ≤ n * m }
    ensures kept { Kept s.old s.new }
{
    let mut count = 0;
    for i in 0..m {
        let d = Point { y: p.y + i, ..p };
        count += fill_row(v, s, d, n, finish);
    }
    count
}

// A region, plane by plane, along z.
#[tactic(auto, using(crate::proofs::Fill::loop_laws))]
fn fill_solid(v: &mut Volume, s: &mut Storage, k: Region, finish: u16) -> u64
    requires { Fillable (stand_in v.old s.old) k.low k.count.x k.count.y k.count.z }
    ensures put { edited_of result (stand_in v.new s.new) ≡ set_each (edited_of 0 (stand_in v.old s.old)) (solid_cells (shape_of v.old) k.low k.count.x k.count.y k.count.z) finish }
    ensures most { result ≤ k.count.x * k.count.y * k.count.z }
    ensures kept { Kept s.old s.new }
{
    let mut count = 0;
    for i in 0..k.count.z {
        let d = Point {
            z: k.low.z + i,
            ..k.low
        };
        count += fill_plane(v, s, d, k.count.x, k.count.y, finish);
    }
    count
}

impl Volume {
    // Every cell that lies both in the box between two corners and in the stand takes a finish: the cells changed, and the header after it; refuses by 3, 4 and 6. Rules out border cells filled by a box beside the stand, and a box filled x outermost.
    #[tactic(auto, using(crate::proofs::Fill::fill_laws))]
    pub fn fill(
        self,
        s: &mut Storage,
        from: Cell,
        to: Cell,
        voxel: Voxel,
    ) -> Result<Edited, Refusal>
        ensures outcome { edit_outcome self result s.new ≡ fill_call (stand_in self s.old) from to voxel.0 }
        ensures kept { Kept s.old s.new }
    {
        s.check(self)?;
        let mut volume = self;
        let Some(k) = box_of(self, from, to) else {
            return Ok(Edited { count: 0, volume });
        };
        if u64::MAX - self.generation < k.count.x * k.count.y * k.count.z {
            return Err(Refusal::GenerationsSpent);
        }
        let count = fill_solid(&mut volume, s, k, voxel.0);
        Ok(Edited { count, volume })
    }
}
