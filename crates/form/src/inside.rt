// Which slots of a section hold cells inside the stand.
ghost use Rattle.std.specs.Prelude.{◌≡◌, cond};
ghost use Rattle.stand.specs.Shape.{Below, corner, counts_of};
ghost use Rattle.form.specs.Inner.{inside_spot};

use stand::volume::formed::Formed;
use stand::volume::shape::{Point, counts};

// A section: the distances of its lowest cell, and how many cells the stand has along each axis.
#[derive(Clone, Copy)]
pub struct Section {
    pub low: Point,
    pub size: Point,
    ghost near: { Below 68719476736 low },
}

impl Section {
    // The section of an index.
    #[tactic(auto, using(crate::proofs::inside::Laws::corner_near))]
    pub(crate) fn at(header: Formed, section: u32) -> Section
        ensures { (result.low ≡ corner (counts_of header.volume.chunks) section) × (result.size ≡ counts_of header.volume.size) }
    {
        Section {
            low: header.corner_of(section),
            size: counts(header.volume.size),
        }
    }

    // Whether the cell at an index within lies in the stand.
    #[tactic(auto, unfolding(crate::specs::Inner::inside_spot))]
    pub(crate) fn holds(self, within: u16) -> bool
        ensures { result ≡ inside_spot self.low self.size within }
    {
        let w = u64::from(within);
        self.low.x + w % 16 < self.size.x
            && self.low.y + w / 16 % 16 < self.size.y
            && self.low.z + w / 256 < self.size.z
    }

    // What a slot counts as that holds x: nothing beyond the size.
    #[tactic(auto, using(crate::proofs::inside::Laws::kept_none))]
    pub(crate) fn kept(self, within: u16, x: u16) -> u16
        ensures { result ≡ cond (inside_spot self.low self.size within) x 0 }
    {
        if x == 0 || !self.holds(within) { 0 } else { x }
    }
}
