// Refusals before anything is measured: header and lengths.
ghost use Rattle.std.specs.Prelude.{◌≡◌, IfOk, false, length};
ghost use Rattle.stand.specs.Answer.{code_of};
ghost use Rattle.stand.specs.Refusal.{first};
ghost use Rattle.stand.specs.Shape.{sections, shape_of};
ghost use Rattle.sheet.specs.Calls.{open_fits};
ghost use Rattle.sheet.specs.Picked.{begin_rules};

use crate::rows::ROW;
use stand::volume::Volume;
use stand::volume::refusal::Refusal;
use stand::volume::view::View;

// The stand as it is read, lent a sheet of this length; refuses by 3 and 4. Rules out 4 for a header that 3 refuses.
#[tactic(auto, unfolding(stand::specs::Refusal::first, crate::specs::Calls::open_fits))]
pub(crate) fn stand_with<'a>(v: Volume, cells: &'a [u16], sheet: usize) -> Result<View<'a>, Refusal>
    ensures code { code_of result ≡ first (begin_rules v (open_fits (sections (shape_of v)) (length cells.now) sheet) false) }
    ensures same { IfOk result (λ w. (w.header.volume ≡ v) × (w.cells ≡ cells.entry)) }
{
    let stand = v.view(cells)?;
    if sheet != stand.header.chunk_total() as usize * ROW {
        return Err(Refusal::WrongLength);
    }
    Ok(stand)
}
