// The shape of a stand: which headers opening gives, and where a cell is stored.
ghost use Rattle.std.specs.Prelude.{◌≡◌, ◌<◌, ◌≤◌, ◌*◌, IfOk, length, nat_le};
ghost use Rattle.stand.specs.Answer.{code_of};
ghost use Rattle.stand.specs.Refusal.{first, header_rules, list_rules};
ghost use Rattle.stand.specs.Shape.{along_at, axis_at, chunks_on, clamp_at, counts_of, levels_of, max_chunks, product, sections, shape_of, slot_at, reach_of, well_formed, Below, Ranged, Stored};

use crate::Cell;
use crate::volume::formed::Formed;
use crate::volume::refusal::Refusal;
use crate::volume::view::View;
use crate::volume::{CHUNK, CHUNK_CELLS, Extent, MAX_CHUNKS, Volume};
use arith::level::{count, level};

// Three numbers along the axes: sizes, chunk counts, distances from the origin, or a chunk's place.
// Kept: a struct of its own, unsigned, since Cell and Extent are for C, and a C struct has no type parameter.
#[derive(Clone, Copy)]
pub struct Point {
    pub x: u64,
    pub y: u64,
    pub z: u64,
}

// A region: where it starts, as distances from the origin, and its cells along each axis, which may be none.
// Kept: two points, since a fill counts along each axis from a low cell; three spans would be taken apart again.
#[derive(Clone, Copy)]
pub struct Region {
    pub low: Point,
    pub count: Point,
}

// Cells in a row along one axis: the first, by its level or its distance from the origin, and how many.
#[derive(Clone, Copy)]
pub struct Span {
    pub low: u64,
    pub count: u64,
}

// A stand's cells along each axis, by levels.
#[derive(Clone, Copy)]
pub(crate) struct Reach {
    pub x: Span,
    pub y: Span,
    pub z: Span,
}

// A cell's coordinates by level. Rules out two axes swapped, and a coordinate with its sign dropped.
// Kept: here and below, one call for each axis: a struct of three has no loop over its fields.
// Kept: no From here nor for `counts`: a level is 2^31 above its number, and of Extent to Point there are two. `Below` has another bound at each place, which Point cannot hold.
pub fn levels(c: Cell) -> Point
    ensures { (result ≡ levels_of c) × Below 4294967296 result × Ranged c }
{
    Point {
        x: level(c.x),
        y: level(c.y),
        z: level(c.z),
    }
}

// Sizes or counts as numbers, 0 for a negative one. Rules out a magnitude, and two axes swapped.
pub fn counts(e: Extent) -> Point
    ensures { (result ≡ counts_of e) × Below 2147483648 result }
{
    Point {
        x: count(e.x),
        y: count(e.y),
        z: count(e.z),
    }
}

// A header's axes.
// Kept: `Ranged`, here, in `levels` and in `Formed::reach`, is a promise and no ghost field of Cell, which the C interface hands in.
pub(crate) fn reach_of(v: Volume) -> Reach
    ensures are { result ≡ reach_of v }
    ensures ranged { Ranged v.origin }
{
    let o = levels(v.origin);
    let n = counts(v.size);
    Reach {
        x: Span {
            low: o.x,
            count: n.x,
        },
        y: Span {
            low: o.y,
            count: n.y,
        },
        z: Span {
            low: o.z,
            count: n.z,
        },
    }
}

// Chunks for n cells along an axis.
#[tactic(auto, unfolding(crate::specs::Shape::chunks_on))]
pub(crate) fn chunks_on(n: u64) -> u64
    ensures { (result ≡ chunks_on n) × (result ≤ n) }
{
    n.div_ceil(CHUNK)
}

// Counts of which the product is within the limit.
#[tactic(auto, unfolding(crate::specs::Shape::product))]
pub(crate) fn few(k: Point) -> bool
    requires { Below 2147483648 k }
    ensures { result ≡ nat_le (product k) max_chunks }
{
    // Kept: tried as saturating_mul, and a get takes a tenth more than before.
    (k.x * k.y).min(MAX_CHUNKS + 1) * k.z <= MAX_CHUNKS
}

// A header that opening gives.
#[tactic(auto, using(crate::proofs::Formed::formed_law))]
fn is_well_formed(v: Volume) -> bool
    ensures { result ≡ well_formed v }
{
    let s = reach_of(v);
    let k = counts(v.chunks);
    s.x.good(k.x) && s.y.good(k.y) && s.z.good(k.z) && few(k)
}

// The storage index at distances d, with k chunks along each axis.
#[tactic(auto, unfolding(crate::specs::Shape::slot_at, crate::specs::Shape::section_at, crate::specs::Shape::within_at, crate::specs::Shape::over, crate::specs::Shape::rest), using(crate::proofs::Formed::chunk_small, crate::proofs::Formed::row_small))]
pub(crate) fn slot_at(k: Point, d: Point) -> usize
    requires { Stored k d }
    ensures { result ≡ slot_at k d }
{
    let row = d.z / CHUNK * k.y + d.y / CHUNK;
    let chunk = row * k.x + d.x / CHUNK;
    let within = (d.z % CHUNK * CHUNK + d.y % CHUNK) * CHUNK + d.x % CHUNK;
    (chunk * CHUNK_CELLS + within) as usize
}

impl Span {
    // One axis of a header that opening gives, with k chunks.
    #[tactic(auto, unfolding(crate::specs::Shape::axis_at))]
    fn good(self, k: u64) -> bool
        ensures { result ≡ axis_at self.low self.count k }
    {
        1 <= self.count
            && self.low.saturating_add(self.count) <= 4294967296
            && k == chunks_on(self.count)
    }

    // The distance from the first cell of one that is among them.
    #[tactic(auto, unfolding(crate::specs::Shape::along_at))]
    pub(crate) fn offset_of(self, c: u64) -> Option<u64>
        ensures { result ≡ along_at self.low self.count c }
    {
        // Kept: tried as checked_sub, and a get takes a fifth more than before.
        if c < self.low {
            return None;
        }
        let d = c - self.low;
        if d < self.count { Some(d) } else { None }
    }

    // The same of a cell held to them.
    #[tactic(auto, unfolding(crate::specs::Shape::clamp_at))]
    pub(crate) fn clamp(self, c: u64) -> u64
        requires { 1 ≤ self.count }
        ensures { (result ≡ clamp_at self.low self.count c) × (result < self.count) }
    {
        c.saturating_sub(self.low).min(self.count - 1)
    }
}

impl Volume {
    // The header, known to be one that opening gives; refuses by 3. Rules out a header whose chunks are not its size's, and a refusal for its generation.
    #[tactic(auto, unfolding(crate::specs::Refusal::first))]
    pub fn formed(self) -> Result<Formed, Refusal>
        ensures code { code_of result ≡ first (header_rules self) }
        ensures same { IfOk result (λ f. f.volume ≡ self) }
    {
        if !is_well_formed(self) {
            return Err(Refusal::NotOpened);
        }
        Ok(Formed { volume: self })
    }

    // The same with a list of `per` entries for each chunk; refuses by 3 and 4.
    #[tactic(auto, unfolding(crate::specs::Refusal::first))]
    pub(crate) fn with_list(self, per: u64, len: usize) -> Result<Formed, Refusal>
        requires { per ≤ 4096 }
        ensures code { code_of result ≡ first (list_rules per self len) }
        ensures same { IfOk result (λ f. f.volume ≡ self) }
        ensures fits { IfOk result (λ f. len ≡ sections (shape_of self) * per) }
    {
        let header = self.formed()?;
        if len as u64 != header.chunk_total() * per {
            return Err(Refusal::WrongLength);
        }
        Ok(header)
    }

    // The stand as it is read: the header with its cells; refuses by 3 and 4. Rules out 4 for a header that 3 refuses, and cells too many.
    pub fn view<'a>(self, cells: &'a [u16]) -> Result<View<'a>, Refusal>
        ensures code { code_of result ≡ first (list_rules 4096 self (length cells.now)) }
        ensures same { IfOk result (λ w. (w.header.volume ≡ self) × (w.cells ≡ cells.entry)) }
    {
        let header = self.with_list(CHUNK_CELLS, cells.len())?;
        Ok(View { header, cells })
    }
}

// The header, known to be one that opening gives and that as many cells fit; refuses by 3 and 4. Rules out 4 for a header that 3 refuses, and 0 for cells too many.
// Kept: beside `view`, since a caller may have a length and no list yet; it is one call.
pub fn cells_code(v: Volume, len: usize) -> Result<Formed, Refusal>
    ensures code { code_of result ≡ first (list_rules 4096 v len) }
    ensures same { IfOk result (λ f. f.volume ≡ v) }
{
    v.with_list(CHUNK_CELLS, len)
}
