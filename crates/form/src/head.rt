// The head of a form, kind 1: origin and size.
ghost use Rattle.std.specs.Prelude.{◌≡◌, ◌≤◌};
ghost use Rattle.form.specs.Inner.{cell_in, head_in};

use crate::layout::{HEAD_LENGTH, Kind};
use arith::bytes::{byte, signed};
use stand::Cell;
use stand::volume::Extent;
use stand::volume::shape::counts;

// Where a form's stand begins, and how many cells it has along each axis.
#[derive(Clone, Copy)]
pub struct Head {
    pub origin: Cell,
    pub size: Extent,
}

// Three i32 from a place in the head on.
fn cell_in(form: &[u8], at: usize) -> Cell
    requires { at ≤ 13 }
    ensures { result ≡ cell_in form.now at }
{
    let x = signed(form, at);
    let y = signed(form, at + 4);
    let z = signed(form, at + 8);
    Cell::new(x, y, z)
}

// The head, where a whole kind 1 comes first, with sizes of 1 or more.
#[tactic(auto, unfolding(crate::specs::Form::has_head, crate::specs::Form::head_shape, crate::specs::Inner::head_in))]
pub(crate) fn read_head(form: &[u8]) -> Option<Head>
    ensures { result ≡ head_in form.now }
{
    if form.len() < HEAD_LENGTH || byte(form, 0) != Kind::Head as u8 {
        return None;
    }
    let origin = cell_in(form, 1);
    let size = Extent::from(cell_in(form, 13));
    let n = counts(size);
    if n.x < 1 || n.y < 1 || n.z < 1 {
        return None;
    }
    Some(Head { origin, size })
}
