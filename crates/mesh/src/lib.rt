// Panels: the visible faces of a stand, merged into rectangles; ported from renew's crates/volume (mesh.rs).
#![tactic(auto)]

ghost use Rattle.std.specs.Prelude.{◌≡◌};
ghost use Rattle.stand.specs.Answer.{answer_of};
ghost use Rattle.mesh.specs.Quad.{merged_call};

use stand::volume::Extent;
use stand::volume::refusal::Refusal;
use stand::volume::shape::counts;
use stand::{Cell, Face, Voxel};

pub mod axes;
mod claim;
pub mod faces;
pub mod lay;
mod part;
mod plane;
mod scan;
mod scene;
mod sides;
pub mod slice;
mod stretch;
mod tiles;

// What lies outside the stand: document 01's outside rule.
#[derive(Clone, Copy, PartialEq, Eq)]
pub enum Beyond {
    // Outside hides a face.
    Solid,
    // Outside shows a face.
    Empty,
}

// A rectangle of visible faces of one side and one finish: document 01's panel.
#[derive(Clone, Copy)]
pub struct Quad {
    // The lowest cell.
    pub cell: Cell,
    pub face: Face,
    pub voxel: Voxel,
    // Cells along each axis: 1 along the face's normal.
    pub extent: Extent,
}

impl Quad {
    // How many faces the panel has; refuses by 13. Rules out a product that wraps, and an answer for an extent of 0.
    pub fn merged(self) -> Result<u64, Refusal>
        ensures { answer_of result ≡ merged_call self.extent }
    {
        let n = counts(self.extent);
        let faces = (n.x * n.y).saturating_mul(n.z);
        let most = i32::MAX as u64;
        if faces == 0 || most < faces {
            return Err(Refusal::Implausible);
        }
        Ok(faces)
    }
}
