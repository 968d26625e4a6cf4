// A section's slices, and their panels one at a time.
// Kept: a side and a rule as numbers, a code and `given` beside the value, and zeros where there is none, since C reads these structs.
ghost use Rattle.std.specs.Prelude.{◌≡◌};
ghost use Rattle.stand.specs.Answer.{answer_of};
ghost use Rattle.exports.specs.Slices.{chunk_slice_reply, claim_reply_of, no_panel, no_slice, replied_claim, replied_slice, side_claim_reply, side_slice, slice_reply_of};

use crate::rule::{BAD_ARGUMENT, rule_at};
use mesh::lay::chunk_slice;
use mesh::slice::{Claimed, Slice};
use stand::volume::refusal::Refusal;
use stand::volume::{Extent, Volume};
use stand::{Cell, Face};

// A slice of a section: its lowest cell, its side's number, and its slots along first and second.
#[repr(C)]
#[derive(Clone, Copy, Default)]
pub struct SideSlice {
    pub cell: Cell,
    pub side: u32,
    pub width: u64,
    pub height: u64,
}

#[repr(C)]
#[derive(Clone, Copy)]
pub struct Sliced {
    pub code: u32,
    pub slice: SideSlice,
}

// A panel claimed, and the cursor to go on from; `given` is 0 where none is left.
#[repr(C)]
#[derive(Clone, Copy, Default)]
pub struct PanelGiven {
    pub code: u32,
    pub given: u32,
    pub cell: Cell,
    pub side: u32,
    pub finish: u32,
    pub extent: Extent,
    pub next: u64,
}

// Kept: no From for this one use: its body and contract would be the same, so that it is no plainer.
fn side_slice(s: Slice) -> SideSlice
    ensures { result ≡ side_slice s }
{
    SideSlice {
        cell: s.cell,
        side: s.face.number() as u32,
        width: s.width,
        height: s.height,
    }
}

// Kept: zeros beside a code, here and in `no_panel`, since C has no Option; two, since C has two structs.
fn no_slice(code: u32) -> Sliced
    ensures { result ≡ no_slice code }
{
    Sliced {
        code,
        slice: SideSlice::default(),
    }
}

// A slice or its refusal. Rules out a slice beside a refusal.
impl From<Result<Slice, Refusal>> for Sliced {
    ghost from_gives = { λ a r. r ≡ replied_slice (answer_of a) };

    fn from(a: Result<Slice, Refusal>) -> Sliced {
        match a {
            Ok(s) => Sliced {
                code: 0,
                slice: side_slice(s),
            },
            Err(r) => no_slice(r.number()),
        }
    }
}

fn no_panel(code: u32) -> PanelGiven
    ensures { result ≡ no_panel code }
{
    PanelGiven {
        code,
        ..PanelGiven::default()
    }
}

// A panel claimed; `given` is 0 where none is left. Rules out a panel beside "none left".
impl From<Option<Claimed>> for PanelGiven {
    ghost from_gives = { λ a r. r ≡ replied_claim a };

    fn from(a: Option<Claimed>) -> PanelGiven {
        let Some(claimed) = a else {
            return no_panel(0);
        };
        let q = claimed.quad;
        PanelGiven {
            code: 0,
            given: 1,
            cell: q.cell,
            side: q.face.number() as u32,
            finish: u32::from(q.voxel.0),
            extent: q.extent,
            next: claimed.next as u64,
        }
    }
}

// Lays a slice of a section into a mask. Rules out side 6 taken for one of the six, and a mask that is written where the call is refused.
#[tactic(auto, unfolding(crate::specs::Slices::chunk_slice_reply))]
pub fn stand_chunk_slice(
    volume: Volume,
    cells: &[u16],
    chunk: usize,
    side: u32,
    slice: usize,
    rule: u32,
    mask: &mut [u16],
) -> Sliced
    ensures { slice_reply_of result mask.new ≡ chunk_slice_reply volume cells.now chunk side slice rule mask.old }
{
    let Some(face) = Face::at(side as usize) else {
        return no_slice(BAD_ARGUMENT);
    };
    let Some(beyond) = rule_at(rule) else {
        return no_slice(BAD_ARGUMENT);
    };
    Sliced::from(chunk_slice(cells, volume, chunk, face, slice, beyond, mask))
}

// Takes a panel out of a mask. Rules out a panel that is kept in the mask, and one of another side.
// Kept: C's slice is turned into a `Slice` here, its one use; a TryFrom would have a type for its error, which is BAD_ARGUMENT alone.
#[tactic(auto, unfolding(crate::specs::Slices::side_claim_reply))]
pub fn stand_claim(slice: SideSlice, mask: &mut [u16], from: usize) -> PanelGiven
    ensures { claim_reply_of result mask.new ≡ side_claim_reply slice mask.old from }
{
    let Some(face) = Face::at(slice.side as usize) else {
        return no_panel(BAD_ARGUMENT);
    };
    let s = Slice {
        cell: slice.cell,
        face,
        width: slice.width,
        height: slice.height,
    };
    PanelGiven::from(s.claim(mask, from))
}
