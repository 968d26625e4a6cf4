// All panels of a stand, or of a section.
// Kept: two calls, each with the rule as a number, since C calls each by its name.
ghost use Rattle.std.specs.Prelude.{◌≡◌};
ghost use Rattle.mesh.specs.Faces.{faces_answer, slots_call};
ghost use Rattle.exports.specs.Panels.{chunk_faces_reply, faces_reply, mesh_reply_of, replied_panels};
ghost use Rattle.exports.specs.Reply.{replied};

use crate::reply::Number;
use crate::rule::{BAD_ARGUMENT, rule_at};
use mesh::faces::{Unmeshed, chunk_faces, chunk_slots, faces};
use stand::volume::Volume;

// Kept: the C interface's code for a list too short; `Unmeshed` has no number for it, since it bears the panels needed.
const TOO_SHORT: u32 = 11;

// The panels written, or the refusal; 11 has the panels needed. Rules out 0 panels needed for a list too short.
impl From<Result<u64, Unmeshed>> for Number {
    ghost from_gives = { λ a r. r ≡ replied_panels (faces_answer a) };

    fn from(a: Result<u64, Unmeshed>) -> Number {
        match a {
            Ok(value) => Number { code: 0, value },
            Err(Unmeshed::TooShort(value)) => Number {
                code: TOO_SHORT,
                value,
            },
            Err(Unmeshed::Refused(r)) => Number::refused(r.number()),
        }
    }
}

// The panels of the whole stand. Rules out rule 2 taken for one of the two, and a number of panels that is not the list's.
#[tactic(auto, unfolding(crate::specs::Panels::faces_reply))]
pub fn stand_faces(
    volume: Volume,
    cells: &[u16],
    rule: u32,
    mask: &mut [u16],
    list: &mut [i32],
) -> Number
    ensures { mesh_reply_of result mask.new list.new ≡ faces_reply volume cells.now rule mask.old list.old }
{
    let Some(beyond) = rule_at(rule) else {
        return Number::refused(BAD_ARGUMENT);
    };
    Number::from(faces(cells, volume, beyond, mask, list))
}

// The panels of a section. Rules out 0 panels needed for a list too short, and the other rule.
#[tactic(auto, unfolding(crate::specs::Panels::chunk_faces_reply))]
pub fn stand_chunk_faces(
    volume: Volume,
    cells: &[u16],
    chunk: usize,
    rule: u32,
    mask: &mut [u16],
    list: &mut [i32],
) -> Number
    ensures { mesh_reply_of result mask.new list.new ≡ chunk_faces_reply volume cells.now chunk rule mask.old list.old }
{
    let Some(beyond) = rule_at(rule) else {
        return Number::refused(BAD_ARGUMENT);
    };
    Number::from(chunk_faces(cells, volume, chunk, beyond, mask, list))
}

// How many mask slots a section wants. Rules out those of a whole stand, and a code of 0 past the last section.
pub fn stand_chunk_slots(volume: Volume, chunk: usize) -> Number
    ensures { result ≡ replied (slots_call volume chunk) }
{
    Number::from(chunk_slots(volume, chunk))
}
