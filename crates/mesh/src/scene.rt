// What is meshed: a stand under an outside rule, a section of it, and a part.
ghost use Rattle.stand.specs.Shape.{shape_of};
ghost use Rattle.mesh.specs.Part.{PartLies, SectionLies};

use crate::Beyond;
use stand::volume::shape::Point;
use stand::volume::view::View;

// A stand as it is read, and what lies outside it.
#[derive(Clone, Copy)]
pub struct Scene<'a> {
    pub stand: View<'a>,
    pub beyond: Beyond,
}

// A section: its index, the levels of its lowest cell, its cells along each axis that are inside, its place, and the chunks of the stand.
// Kept: not one with `Part`, a box of sections: that has no index, and this no sections across.
#[derive(Clone, Copy)]
pub struct Section<'a> {
    pub scene: Scene<'a>,
    pub chunk: usize,
    pub low: Point,
    pub count: Point,
    pub place: Point,
    pub chunks: Point,
    ghost lies: { SectionLies (shape_of scene.stand.header.volume) chunk low count place chunks },
}

// A box of sections: the levels of its lowest cell, its cells along each axis, the place of its lowest section, its sections along each
// axis, and the chunks of the stand.
#[derive(Clone, Copy)]
pub struct Part<'a> {
    pub scene: Scene<'a>,
    pub low: Point,
    pub count: Point,
    pub place: Point,
    pub across: Point,
    pub chunks: Point,
    ghost lies: { PartLies (shape_of scene.stand.header.volume) low count place across chunks },
}
