// A section's slices, and their panels one at a time.
ghost use Rattle.std.specs.Prelude.{◌≡◌};
ghost use Rattle.exports.specs.Slices.{chunk_slice_reply, claim_reply_of, side_claim_reply, slice_reply_of};

use exports::slices::{PanelGiven, SideSlice, Sliced};
use stand::volume::Volume;

#[unsafe(no_mangle)]
pub extern "C" fn stand_chunk_slice(
    volume: Volume,
    cells: &[u16],
    chunk: usize,
    side: u32,
    slice: usize,
    rule: u32,
    mask: &mut [u16],
) -> Sliced
    ensures { slice_reply_of result mask.new ≡ chunk_slice_reply volume cells.now chunk side slice rule mask.old }
{
    exports::slices::stand_chunk_slice(volume, cells, chunk, side, slice, rule, mask)
}

#[unsafe(no_mangle)]
pub extern "C" fn stand_claim(slice: SideSlice, mask: &mut [u16], from: usize) -> PanelGiven
    ensures { claim_reply_of result mask.new ≡ side_claim_reply slice mask.old from }
{
    exports::slices::stand_claim(slice, mask, from)
}
