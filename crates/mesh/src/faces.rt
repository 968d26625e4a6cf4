// The calls that mesh: one section, or the whole stand.
ghost use Rattle.std.specs.Prelude.{◌≡◌, []};
ghost use Rattle.stand.specs.Answer.{answer_of};
ghost use Rattle.mesh.specs.Faces.{chunk_faces_call, faces_answer, faces_call, meshing_of, part_call, slots_call};
ghost use Rattle.mesh.specs.Scene.{open_in, shape_in};
ghost use Rattle.mesh.specs.Tiles.{part_of};
ghost use Rattle.mesh.specs.Visible.{empty_beyond};
ghost use Rattle.mesh.specs.declared.faces.Unmeshed.TheVariants.{Refused};

use crate::Beyond;
use crate::part::{check_chunk, cut_at};
use crate::scene::{Part, Scene};
use crate::sides::mesh_sides;
use crate::tiles::{largest, section_part, whole_part};
use stand::volume::Volume;
use stand::volume::refusal::Refusal;

// Why a meshing call does not give all panels: it is refused, or the list is too short for the panels that there are (11).
#[derive(Clone, Copy, Debug, PartialEq, Eq)]
pub enum Unmeshed {
    Refused(Refusal),
    TooShort(u64),
}

// Rules out another refusal, and a refusal taken for a list that is too short.
impl From<Refusal> for Unmeshed {
    ghost from_gives = { λ r u. u ≡ Refused r };

    fn from(r: Refusal) -> Unmeshed {
        Unmeshed::Refused(r)
    }
}

// A part meshed; refuses by 10 and 11.
fn mesh_part(mask: &mut [u16], p: Part, list: &mut [i32]) -> Result<u64, Unmeshed>
    ensures { meshing_of (faces_answer result) mask.new list.new ≡ part_call [] (shape_in p.entry.scene) p.entry.scene.stand.cells.now (open_in p.entry.scene) (part_of p.entry) mask.old list.old }
{
    let want = largest(p.count) as usize;
    if mask.len() < want {
        return Err(Unmeshed::Refused(Refusal::MaskTooShort));
    }
    mask[..want].fill(0);
    let made = mesh_sides(mask, p, list);
    if list.len() / 8 < made {
        return Err(Unmeshed::TooShort(made as u64));
    }
    Ok(made as u64)
}

// The panels of one section; refuses by 3, 4, 7, 10 and 11. Rules out panels of another section, and panels that reach past it.
pub fn chunk_faces(
    cells: &[u16],
    v: Volume,
    chunk: usize,
    beyond: Beyond,
    mask: &mut [u16],
    list: &mut [i32],
) -> Result<u64, Unmeshed>
    ensures { meshing_of (faces_answer result) mask.new list.new ≡ chunk_faces_call v cells.now chunk (empty_beyond beyond) mask.old list.old }
{
    let stand = v.view(cells)?;
    check_chunk(stand.header, chunk)?;
    mesh_part(mask, section_part(Scene { stand, beyond }, chunk), list)
}

// The panels of the whole stand, merged across sections; refuses by 3, 4, 10 and 11. Rules out panels cut at a section's edge, and faces between two sections that both have a block there.
pub fn faces(
    cells: &[u16],
    v: Volume,
    beyond: Beyond,
    mask: &mut [u16],
    list: &mut [i32],
) -> Result<u64, Unmeshed>
    ensures { meshing_of (faces_answer result) mask.new list.new ≡ faces_call v cells.now (empty_beyond beyond) mask.old list.old }
{
    let stand = v.view(cells)?;
    mesh_part(mask, whole_part(Scene { stand, beyond }), list)
}

// How many mask slots a section wants; refuses by 3 and 7. Rules out those of a section that the size does not cut short, and an answer past the last section.
pub fn chunk_slots(v: Volume, chunk: usize) -> Result<u64, Refusal>
    ensures { answer_of result ≡ slots_call v chunk }
{
    let header = v.formed()?;
    check_chunk(header, chunk)?;
    let corner = header.corner_of(chunk as u32);
    Ok(largest(cut_at(header, corner)))
}
