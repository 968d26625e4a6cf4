// Loading: an opening of the stand.
ghost use Rattle.std.specs.Prelude.{◌≡◌, IfOk, true, length};
ghost use Rattle.stand.specs.Answer.{answer_of, code_of};
ghost use Rattle.stand.specs.Lent.{Kept, storage_in};
ghost use Rattle.stand.specs.Opening.{opening_of};
ghost use Rattle.stand.specs.Refusal.{first, gives};
ghost use Rattle.stand.specs.Shape.{sections, shape_of};
ghost use Rattle.stand.specs.Storage.{lengths_of, storage_fits, volume_of};
ghost use Rattle.form.specs.Calls.{load_call, stored_header};
ghost use Rattle.form.specs.Entries.{loaded_storage, mixed, placed};
ghost use Rattle.form.specs.Form.{entries_at, head_length, head_shape};
ghost use Rattle.form.specs.Inner.{Ordered, Roomy, head_rules};

use crate::check::check;
use crate::head::read_head;
use crate::records::Records;
use stand::volume::Volume;
use stand::volume::edit::toggle;
use stand::volume::formed::Formed;
use stand::volume::opening::header;
use stand::volume::refusal::Refusal;
use stand::volume::storage::Storage;

// The header that a form's head opens; refuses by 14, 1 and 2.
#[tactic(auto, using(crate::proofs::load::Laws::head_none, crate::proofs::load::Laws::head_turned, crate::proofs::load::Laws::head_passes, crate::proofs::load::Laws::head_volume, crate::proofs::load::Laws::head_formed))]
fn opened(form: &[u8]) -> Result<Formed, Refusal>
    ensures code { code_of result ≡ first (head_rules form.now) }
    ensures same { IfOk result (λ h. h.volume ≡ volume_of (head_shape form.now) 0 0) }
{
    let head = read_head(form).ok_or(Refusal::BadForm)?;
    let volume = header(head.origin, head.size)?;
    Ok(Formed { volume })
}

// The header that loading a form gives, before storage is looked at; refuses by 1, 2 and 14. How many sections it has says what to lend. Rules out a size below 1 taken for 1, and a header of a form that loading refuses.
// Kept: a call beside `load`, since it is asked before there is storage; both are `opened` and `check`, between which `load` tests the storage.
#[tactic(auto, using(crate::proofs::load::Laws::stored_done))]
pub fn stored_header(form: &[u8]) -> Result<Volume, Refusal>
    ensures { answer_of result ≡ stored_header form.now }
{
    let header = opened(form)?;
    let records = check(header, form)?;
    Ok(Volume {
        solid: records.count as u64,
        ..header.volume
    })
}

// The records put into cells and hashes.
#[tactic(auto, using(crate::proofs::load::Laws::puts_none, crate::proofs::load::Laws::put_cell, crate::proofs::load::Laws::put_hash, crate::proofs::load::Laws::puts_all))]
fn place(records: Records, cells: &mut [u16], hashes: &mut [u64])
    requires { Roomy (length cells.old) (length hashes.old) (entries_at records.form.now head_length records.count) }
    ensures placed { cells.new ≡ placed (entries_at records.entry.form.now head_length records.entry.count) cells.old }
    ensures mixed { hashes.new ≡ mixed (entries_at records.entry.form.now head_length records.entry.count) hashes.old }
{
    for k in 0..records.count {
        let record = records.get(k);
        let slot = record.slot() as usize;
        let chunk = slot / 4096;
        cells[slot] = record.finish;
        hashes[chunk] = toggle((slot % 4096) as u16, record.finish, hashes[chunk]);
    }
}

// The stand opened, then the records put in.
// Kept: `Kept`, here and in `load`, speaks of the lists before and after, which no invariant of one value can say.
fn fill(header: Formed, records: Records, s: &mut Storage) -> Result<Volume, Refusal>
    requires { Ordered (shape_of header.volume) (entries_at records.form.now head_length records.count) × (storage_fits (sections (shape_of header.volume)) (lengths_of (storage_in s.old)) ≡ true) }
    ensures outcome { opening_of (answer_of result) (storage_in s.new) ≡ opening_of (gives (volume_of (shape_of header.volume) 0 records.entry.count)) (loaded_storage (shape_of header.volume) (entries_at records.entry.form.now head_length records.entry.count)) }
    ensures kept { Kept s.old s.new }
{
    let volume = Volume::new(header.volume.origin, header.volume.size, s)?;
    place(records, &mut *s.cells, &mut *s.hashes);
    Ok(Volume {
        solid: records.count as u64,
        ..volume
    })
}

// Opens the stand that a form holds and answers its header, at generation 0; refuses by 1, 2, 4 and 14, and then every list is as it was. Rules out a list left changed by a refusal, and a generation that counts the cells put in.
#[tactic(auto, using(crate::proofs::load::Laws::load_done))]
pub fn load(form: &[u8], s: &mut Storage) -> Result<Volume, Refusal>
    ensures outcome { opening_of (answer_of result) (storage_in s.new) ≡ load_call (storage_in s.old) form.now }
    ensures kept { Kept s.old s.new }
{
    let header = opened(form)?;
    s.check(header.volume)?;
    let records = check(header, form)?;
    fill(header, records, s)
}
