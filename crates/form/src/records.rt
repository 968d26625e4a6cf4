// The records of a form's cells, one after the other.
ghost use Rattle.std.specs.Prelude.{◌≡◌, ◌<◌, ◌≤◌, length};
ghost use Rattle.stand.specs.Shape.{shape_of};
ghost use Rattle.form.specs.Form.{good_from, good_in, head_length};
ghost use Rattle.form.specs.Inner.{counted_in, record_at, record_in};

use crate::layout::{CELL_LENGTH, EMPTY_LENGTH, HEAD_LENGTH, Kind};
use crate::record::Record;
use stand::volume::formed::Formed;

// A form with the records of so many cells after its head.
#[derive(Clone, Copy)]
pub struct Records<'a> {
    pub form: &'a [u8],
    pub count: usize,
    ghost whole: { record_at count ≤ length form.now },
}

// How many cells a form of this length has, where it has whole records.
#[tactic(auto, unfolding(crate::specs::Inner::counted_in))]
pub(crate) fn count_in(length: usize) -> Option<usize>
    ensures { result ≡ counted_in length }
{
    let room = length.checked_sub(EMPTY_LENGTH)?;
    if room % CELL_LENGTH != 0 {
        return None;
    }
    Some(room / CELL_LENGTH)
}

impl<'a> Records<'a> {
    // Record k.
    pub(crate) fn get(self, k: usize) -> Record
        requires { k < self.count }
        ensures { result ≡ record_in self.entry.form.now (record_at k) }
    {
        Record::read(self.form, HEAD_LENGTH + k * CELL_LENGTH)
    }

    // Whether record k is one of a cell of the stand.
    #[tactic(auto, unfolding(crate::specs::Form::entry_in, crate::specs::Form::good_in, crate::specs::Inner::good_record))]
    fn is_good(self, header: Formed, k: usize) -> bool
        requires { k < self.count }
        ensures { result ≡ good_in (shape_of header.volume) self.entry.form.now (record_at k) }
    {
        self.form[HEAD_LENGTH + k * CELL_LENGTH] == Kind::Cell as u8 && self.get(k).is_good(header)
    }

    // Whether they are good and ascending.
    #[tactic(auto, unfolding(crate::specs::Form::entry_in), using(crate::proofs::check::Laws::from_bad, crate::proofs::check::Laws::from_low, crate::proofs::check::Laws::from_more, crate::proofs::check::Laws::from_all))]
    pub(crate) fn are_good(self, header: Formed) -> bool
        ensures { result ≡ good_from (shape_of header.volume) self.entry.form.now head_length 0 self.entry.count }
    {
        let mut next = 0;
        for k in 0..self.count {
            if !self.is_good(header, k) {
                return false;
            }
            let slot = self.get(k).slot();
            if slot < next {
                return false;
            }
            next = slot + 1;
        }
        true
    }
}
