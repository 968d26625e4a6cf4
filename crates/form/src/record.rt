// The record of a cell, kind 2: section, index within and finish.
ghost use Rattle.std.specs.Prelude.{◌≡◌, ◌<◌, ◌≤◌, ◌+◌, length};
ghost use Rattle.stand.specs.Shape.{shape_of};
ghost use Rattle.form.specs.Form.{cell_length};
ghost use Rattle.form.specs.Inner.{good_record, record_in, slot_of};

use crate::inside::Section;
use stand::volume::formed::Formed;

// What it says after its kind.
#[derive(Clone, Copy)]
pub struct Record {
    pub section: u16,
    pub within: u16,
    pub finish: u16,
}

impl Record {
    // The record at a place. Its bytes are known to be there, so that none of them is tested for the end, as arith's readers do.
    #[tactic(auto, unfolding(arith::specs::Bytes::short_at))]
    pub(crate) fn read(form: &[u8], at: usize) -> Record
        requires { at + cell_length ≤ length form.now }
        ensures { result ≡ record_in form.now at }
    {
        Record {
            section: u16::from_le_bytes([form[at + 1], form[at + 2]]),
            within: u16::from_le_bytes([form[at + 3], form[at + 4]]),
            finish: u16::from_le_bytes([form[at + 5], form[at + 6]]),
        }
    }

    // The storage index that it names.
    pub(crate) fn slot(self) -> u64
        ensures { (result ≡ slot_of self) × (result < 536870912) }
    {
        u64::from(self.section) * 4096 + u64::from(self.within)
    }

    // Whether it has an index within of at most 4,095, a finish, and a cell of the stand.
    #[tactic(auto, unfolding(crate::specs::Inner::good_record), using(crate::proofs::inside::Laws::record_inside))]
    pub(crate) fn is_good(self, header: Formed) -> bool
        ensures { result ≡ good_record (shape_of header.volume) self }
    {
        self.within <= 4095
            && self.finish != 0
            && u64::from(self.section) < header.chunk_total()
            && Section::at(header, u32::from(self.section)).holds(self.within)
    }
}
