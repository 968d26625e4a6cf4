// The digest of a form in one pass over its records, with no storage.
ghost use Rattle.std.specs.Prelude.{◌≡◌, ◌≤◌, ◌-◌};
ghost use Rattle.stand.specs.Shape.{shape_of};
ghost use Rattle.form.specs.Entries.{digest_with};
ghost use Rattle.form.specs.Form.{entries_at, head_length};
ghost use Rattle.form.specs.Inner.{Ordered, run_from};

use crate::records::Records;
use stand::volume::edit::toggle;
use stand::volume::formed::Formed;
use stand::volume::hash::{fold, fold_shape};

// The records of one section that come first: the record after them, and the section's hash.
#[derive(Clone, Copy)]
pub struct Run {
    pub next: usize,
    pub hash: u64,
}

impl<'a> Records<'a> {
    // Of the records from `from` on, those of section i that come first.
    #[tactic(auto, unfolding(crate::specs::Form::entry_in), using(crate::proofs::digest::Laws::run_stop, crate::proofs::digest::Laws::run_on, crate::proofs::digest::Laws::run_end))]
    fn run(self, i: u64, from: usize) -> Run
        requires { from ≤ self.count }
        ensures { (result ≡ run_from self.entry.form.now i from 0 (self.entry.count - from)) × (result.next ≤ self.entry.count) }
    {
        // Told apart, so that a section with no record costs six instructions and not seven.
        if self.count <= from {
            return Run {
                next: from,
                hash: 0,
            };
        }
        let mut hash = 0;
        for k in from..self.count {
            let record = self.get(k);
            let slot = record.slot();
            if slot / 4096 != i {
                return Run { next: k, hash };
            }
            hash = toggle((slot % 4096) as u16, record.finish, hash);
        }
        Run {
            next: self.count,
            hash,
        }
    }

    // The digest of a fresh stand of this header's shape, filled with the records.
    #[tactic(auto, using(crate::proofs::digest::Laws::streams_all))]
    pub(crate) fn digest(self, header: Formed) -> u64
        requires { Ordered (shape_of header.volume) (entries_at self.form.now head_length self.count) }
        ensures { result ≡ digest_with (shape_of header.volume) (entries_at self.entry.form.now head_length self.entry.count) }
    {
        let mut acc = fold_shape(header.volume);
        let mut k = 0;
        for i in 0..header.chunk_total() {
            let r = self.run(i, k);
            acc = fold(acc, r.hash);
            k = r.next;
        }
        acc
    }
}
