// A stand to be read: a header that opening gives, and as many cells as it has.
ghost use Rattle.std.specs.Prelude.{◌≡◌, ◌*◌, length};
ghost use Rattle.stand.specs.Shape.{sections, shape_of};

use crate::volume::formed::Formed;

#[derive(Clone, Copy)]
pub struct View<'a> {
    pub header: Formed,
    pub cells: &'a [u16],
    ghost fits: { length cells.now ≡ sections (shape_of header.volume) * 4096 },
}
