// A side as the tables of six have it, and numbers along its axes.
// Kept: an axis is a number, 0 to 2, as in the tables of six, since the eight numbers of a panel are stored by it (`panel[at + axes.normal]` in scan.rt).
ghost use Rattle.std.specs.Prelude.{◌≡◌, ◌<◌, pos};
ghost use Rattle.std.specs.Int.Signed.{lt_z};
ghost use Rattle.stand.specs.Sides.{axes_at, side_number, way_at};
ghost use Rattle.mesh.specs.Axes.{across, along};
ghost use Rattle.mesh.specs.Part.{on_axis};

use stand::volume::shape::Point;
use stand::{Axes, Face};

// A side: its number, its axes, and whether its step goes up along the normal.
// Kept: what the tables of six say of a side, read once: its number, as a panel stores it, and its way; a face in its place would have them read again at each step.
#[derive(Clone, Copy)]
pub struct Side {
    pub number: usize,
    pub axes: Axes,
    pub up: bool,
    pub ghost known: { number < 6 },
    pub ghost read: { axes ≡ axes_at number },
    pub ghost way: { up ≡ lt_z (pos 0) (way_at number) },
}

// The one of three values that belongs to axis a.
pub(crate) fn along<T: Copy>(a: usize, x: T, y: T, z: T) -> T
    ensures { result ≡ along a x y z }
{
    match a {
        0 => x,
        1 => y,
        _ => z,
    }
}

// A side, read from the tables. Rules out another side, and with it other axes, and "up" for a step down.
// Kept: a public function keeps its name; a From beside it would be a second name for it.
pub fn side_of(face: Face) -> Side
    ensures { result.number ≡ side_number face }
{
    let axes = face.axes();
    let step = face.step();
    Side {
        number: face.number(),
        axes,
        up: 0 < along(axes.normal, step.x, step.y, step.z),
    }
}

// The same by its number.
// Kept: no From, which can require nothing; and not one with sheet's `face_of`, since no open function has a requires.
pub(crate) fn side_at(number: usize) -> Side
    requires { number < 6 }
    ensures { result.number ≡ number }
{
    side_of(Face::at(number).unwrap())
}

// A number along axis a.
pub(crate) fn on_axis(p: Point, a: usize) -> u64
    ensures { result ≡ on_axis a p }
{
    along(a, p.x, p.y, p.z)
}

// k along an axis, u and v along the other two in order. A branch, since it runs for each panel that is claimed.
pub(crate) fn to_axes(normal: usize, k: u64, u: u64, v: u64) -> Point
    ensures { result ≡ across normal k u v }
{
    match normal {
        0 => Point { x: k, y: u, z: v },
        1 => Point { x: u, y: k, z: v },
        _ => Point { x: u, y: v, z: k },
    }
}
