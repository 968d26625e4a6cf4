// All panels of a stand, or of a section.
ghost use Rattle.std.specs.Prelude.{◌≡◌};
ghost use Rattle.mesh.specs.Faces.{slots_call};
ghost use Rattle.exports.specs.Panels.{chunk_faces_reply, faces_reply, mesh_reply_of};
ghost use Rattle.exports.specs.Reply.{replied};

use exports::reply::Number;
use stand::volume::Volume;

#[unsafe(no_mangle)]
pub extern "C" fn stand_faces(
    volume: Volume,
    cells: &[u16],
    rule: u32,
    mask: &mut [u16],
    list: &mut [i32],
) -> Number
    ensures { mesh_reply_of result mask.new list.new ≡ faces_reply volume cells.now rule mask.old list.old }
{
    exports::panels::stand_faces(volume, cells, rule, mask, list)
}

#[unsafe(no_mangle)]
pub extern "C" fn stand_chunk_faces(
    volume: Volume,
    cells: &[u16],
    chunk: usize,
    rule: u32,
    mask: &mut [u16],
    list: &mut [i32],
) -> Number
    ensures { mesh_reply_of result mask.new list.new ≡ chunk_faces_reply volume cells.now chunk rule mask.old list.old }
{
    exports::panels::stand_chunk_faces(volume, cells, chunk, rule, mask, list)
}

#[unsafe(no_mangle)]
pub extern "C" fn stand_chunk_slots(volume: Volume, chunk: usize) -> Number
    ensures { result ≡ replied (slots_call volume chunk) }
{
    exports::panels::stand_chunk_slots(volume, chunk)
}
