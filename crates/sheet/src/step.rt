// Steps between chunks that share a face.
ghost use Rattle.std.specs.Prelude.{◌≡◌, ◌<◌, ◌≤◌, IfSome};
ghost use Rattle.stand.specs.Shape.{counted, max_chunks, product, sections, shape_of};
ghost use Rattle.sheet.specs.Turn.{line_on, step_to};

use crate::sides::{SIDES, face_of};
use mesh::axes::side_of;
use stand::volume::formed::Formed;
use stand::volume::shape::{Point, counts};

// A chunk along an axis: its place, the chunks there, and how far apart the indices of neighbours are.
#[derive(Clone, Copy)]
pub(crate) struct Line {
    pub place: u64,
    pub count: u64,
    pub hop: u64,
}

// Kept: an axis by its number, as in the tables of six; and not `corner_of`, which divides along all three axes and answers cells.
fn line_on(k: Point, c: u64, a: usize) -> Line
    requires { (c < product k) × (product k ≤ max_chunks) × (a < 3) }
    ensures { result ≡ line_on k c a }
{
    match a {
        0 => Line {
            place: c % k.x,
            count: k.x,
            hop: 1,
        },
        1 => Line {
            place: c / k.x % k.y,
            count: k.y,
            hop: k.x,
        },
        _ => Line {
            place: c / k.x / k.y,
            count: k.z,
            hop: k.x * k.y,
        },
    }
}

// The chunk one step on from c to side s, if there is one; past the last side c itself.
// Kept: sides by number here and in turn.rt, and 6 for the chunk itself: the walk resumes at a step, which a face cannot count past the last side.
pub(crate) fn step_to(header: Formed, c: usize, s: usize) -> Option<usize>
    requires { c < sections (shape_of header.volume) }
    ensures step { result ≡ step_to (counted (shape_of header.volume)) c s }
    ensures low { IfSome result (λ d. d < sections (shape_of header.volume)) }
{
    if SIDES <= s {
        return Some(c);
    }
    let side = side_of(face_of(s));
    let l = line_on(counts(header.volume.chunks), c as u64, side.axes.normal);
    let hop = l.hop as usize;
    if side.up {
        if l.place + 1 < l.count {
            return Some(c + hop);
        }
        return None;
    }
    if 0 < l.place {
        return Some(c - hop);
    }
    None
}
