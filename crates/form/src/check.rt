// A form checked without storage.
ghost use Rattle.std.specs.Prelude.{◌≡◌, IfOk, cond};
ghost use Rattle.stand.specs.Answer.{code_of};
ghost use Rattle.stand.specs.Shape.{shape_of};
ghost use Rattle.form.specs.Form.{count_in, valid};

use crate::layout::{CELL_LENGTH, HEAD_LENGTH, Kind};
use crate::records::{Records, count_in};
use arith::bytes::{byte, double};
use stand::volume::formed::Formed;
use stand::volume::refusal::Refusal;

// The records of a form that after its kind 1 has whole ones, each good, ascending, and the digest, with no byte after it; refuses by 14.
#[tactic(auto, unfolding(crate::specs::Form::count_in, crate::specs::Form::entries_in, crate::specs::Form::valid, crate::specs::Inner::counted_in), using(crate::proofs::check::Laws::ordered))]
pub(crate) fn check<'a>(header: Formed, form: &'a [u8]) -> Result<Records<'a>, Refusal>
    ensures code { code_of result ≡ cond (valid (shape_of header.volume) form.now) 0 14 }
    ensures same { IfOk result (λ r. (r.form ≡ form.entry) × (r.count ≡ count_in form.now)) }
{
    let count = count_in(form.len()).ok_or(Refusal::BadForm)?;
    let records = Records { form, count };
    if !records.are_good(header) {
        return Err(Refusal::BadForm);
    }
    let end = HEAD_LENGTH + count * CELL_LENGTH;
    if byte(form, end) != Kind::End as u8 {
        return Err(Refusal::BadForm);
    }
    let same = double(form, end + 1) == records.digest(header);
    if !same {
        return Err(Refusal::BadForm);
    }
    Ok(records)
}
