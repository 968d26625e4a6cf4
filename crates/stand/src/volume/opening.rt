// Opening a stand.
ghost use Rattle.std.specs.Prelude.{◌≡◌, ◌<◌, ◌≤◌};
ghost use Rattle.stand.specs.Answer.{answer_of};
ghost use Rattle.stand.specs.Lent.{Kept, storage_in};
ghost use Rattle.stand.specs.Opening.{header_call, last_inside, open_call, opening_of, size_on, sizes_of};
ghost use Rattle.stand.specs.Shape.{Sized, chunks_in};
ghost use Rattle.stand.specs.Storage.{extent_of};

use crate::Cell;
use crate::volume::refusal::Refusal;
use crate::volume::shape::{Point, chunks_on, few, levels};
use crate::volume::storage::Storage;
use crate::volume::{Extent, Volume};
use arith::level::count;

// A size below 1 becomes 1.
#[tactic(auto, unfolding(crate::specs::Opening::size_on))]
fn size_on(s: i32) -> u64
    ensures { (result ≡ size_on s) × (1 ≤ result) × (result < 2147483648) }
{
    count(s).max(1)
}

// Kept: one call for each axis, as `levels`; and no From, since `counts` goes from Extent to Point too, and tells a size of 0 otherwise.
#[tactic(auto, unfolding(crate::specs::Opening::sizes_of))]
fn sizes(s: Extent) -> Point
    ensures { (result ≡ sizes_of s) × Sized result }
{
    Point {
        x: size_on(s.x),
        y: size_on(s.y),
        z: size_on(s.z),
    }
}

// Chunks along each axis.
// Kept: one call for each axis, as `levels`.
#[tactic(auto, unfolding(crate::specs::Shape::chunks_in, crate::specs::Shape::chunks_on))]
fn chunks_in(n: Point) -> Point
    requires { Sized n }
    ensures { (result ≡ chunks_in n) × Sized result }
{
    Point {
        x: chunks_on(n.x),
        y: chunks_on(n.y),
        z: chunks_on(n.z),
    }
}

// The last cell of n from o on fits i32.
#[tactic(auto, using(crate::proofs::Opening::last_by_levels))]
fn last_inside(origin: Cell, n: Point) -> bool
    requires { Sized n }
    ensures { result ≡ last_inside origin n }
{
    let o = levels(origin);
    o.x + n.x <= 4294967296 && o.y + n.y <= 4294967296 && o.z + n.z <= 4294967296
}

// Kept: one conversion for each axis, as `levels`; and no From, which can require nothing.
fn extent(p: Point) -> Extent
    requires { Sized p }
    ensures { result ≡ extent_of p }
{
    Extent {
        x: p.x as i32,
        y: p.y as i32,
        z: p.z as i32,
    }
}

// The header that opening gives, before storage is looked at: how many chunks it has says what to lend; refuses by 1 and 2. Rules out a count that wraps, and a last cell past i32.
pub fn header(origin: Cell, size: Extent) -> Result<Volume, Refusal>
    ensures { answer_of result ≡ header_call origin size }
{
    let n = sizes(size);
    let k = chunks_in(n);
    if !few(k) {
        return Err(Refusal::TooManyChunks);
    }
    if !last_inside(origin, n) {
        return Err(Refusal::LastCellPastI32);
    }
    Ok(Volume {
        origin,
        chunks: extent(k),
        size: extent(n),
        generation: 0,
        solid: 0,
    })
}

impl Volume {
    // A stand of `size` cells from `origin` on, all empty; refuses by 1, 2 and 4. Rules out a stand on storage that is not zeroed, and one of too many chunks.
    // Inlined always: a header handed on through memory makes a refused opening take twice the time.
    #[inline(always)]
    #[tactic(auto, using(crate::proofs::Opening::open_turned))]
    pub fn new(origin: Cell, size: Extent, s: &mut Storage) -> Result<Volume, Refusal>
        ensures outcome { opening_of (answer_of result) (storage_in s.new) ≡ open_call (storage_in s.old) origin size }
        ensures kept { Kept s.old s.new }
    {
        let volume = header(origin, size)?;
        s.check(volume)?;
        s.clear();
        Ok(volume)
    }
}
