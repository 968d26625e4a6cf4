// A header that opening gives.
ghost use Rattle.std.specs.Prelude.{◌≡◌, ◌<◌, ◌≤◌, true};
ghost use Rattle.stand.specs.Shape.{cell_from, corner, counted, counts_of, max_chunks, place_of, point_of, reach_of, sections, shape_of, spot_of, well_formed, Ranged, Sized};

use crate::Cell;
use crate::volume::shape::{Point, Reach, counts, levels, reach_of, slot_at};
use crate::volume::{CHUNK, Volume};

// A header that 3 does not refuse.
#[derive(Clone, Copy)]
pub struct Formed {
    pub volume: Volume,
    ghost formed: { well_formed volume ≡ true },
}

impl Formed {
    // How many chunks there are. Rules out the chunks along one axis, and none.
    #[tactic(auto, unfolding(crate::specs::Shape::product, crate::specs::Shape::sections))]
    pub fn chunk_total(self) -> u64
        ensures total { result ≡ sections (shape_of self.volume) }
        ensures some { 1 ≤ result }
        ensures few { result ≤ max_chunks }
    {
        let k = self.chunk_counts();
        k.x * k.y * k.z
    }

    // Its axes, each of at least one cell.
    pub(crate) fn reach(self) -> Reach
        ensures are { result ≡ reach_of self.volume }
        ensures ranged { Ranged self.volume.origin }
        ensures size { point_of result.x.count result.y.count result.z.count ≡ (shape_of self.volume).size }
        ensures some { (1 ≤ result.x.count) × (1 ≤ result.y.count) × (1 ≤ result.z.count) }
    {
        reach_of(self.volume)
    }

    // Chunks along each axis.
    // Kept: `Sized`, here and in opening.rt, is a promise beside a Point and no invariant of it, since a Point is a distance or a place too.
    pub(crate) fn chunk_counts(self) -> Point
        ensures given { result ≡ counts_of self.volume.chunks }
        ensures shape { result ≡ counted (shape_of self.volume) }
        ensures sized { Sized result }
    {
        counts(self.volume.chunks)
    }

    // The distances of a chunk's lowest cell from the origin. Rules out its place unscaled, and two axes swapped.
    // Kept: sheet's `line_on` divides along the axis of a step alone, and answers a count and a hop; one function for both would be no plainer.
    #[tactic(auto, unfolding(crate::specs::Shape::corner, crate::specs::Shape::chunk_place))]
    pub fn corner_of(self, chunk: u32) -> Point
        ensures { result ≡ corner (counts_of self.volume.chunks) chunk }
    {
        let k = self.chunk_counts();
        let i = u64::from(chunk);
        Point {
            x: i % k.x * CHUNK,
            y: i / k.x % k.y * CHUNK,
            z: i / k.x / k.y * CHUNK,
        }
    }

    // The cell at distances that are inside.
    pub(crate) fn cell_from(self, d: Point) -> Cell
        requires { (d.x < (shape_of self.volume).size.x) × (d.y < (shape_of self.volume).size.y) × (d.z < (shape_of self.volume).size.z) }
        ensures { result ≡ cell_from (shape_of self.volume) d }
    {
        self.volume
            .origin
            .offset(d.x as i32, d.y as i32, d.z as i32)
    }

    // The distances of a cell that is inside.
    pub(crate) fn spot_of(self, c: Cell) -> Option<Point>
        ensures { result ≡ spot_of (shape_of self.volume) c }
    {
        let s = self.reach();
        let p = levels(c);
        let x = s.x.offset_of(p.x)?;
        let y = s.y.offset_of(p.y)?;
        let z = s.z.offset_of(p.z)?;
        Some(Point { x, y, z })
    }

    // Where a cell that is inside is stored.
    #[tactic(auto, using(crate::proofs::Formed::place_none))]
    pub(crate) fn place_of(self, c: Cell) -> Option<usize>
        ensures { result ≡ place_of (shape_of self.volume) c }
    {
        let d = self.spot_of(c)?;
        Some(slot_at(self.chunk_counts(), d))
    }
}
