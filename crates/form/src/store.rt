// Storing: the form of a stand, from its header and its cells alone.
ghost use Rattle.std.specs.Prelude.{◌≡◌, ℕ, ◌<◌, ◌≤◌, ◌+◌, ◌*◌, length, slice_index};
ghost use Rattle.std.proofs.lemmas.List.Edits.{sets};
ghost use Rattle.stand.specs.Answer.{answer_of};
ghost use Rattle.stand.specs.Shape.{sections, shape_of};
ghost use Rattle.form.specs.Calls.{store_call, stored_form, stored_length, storing_of};
ghost use Rattle.form.specs.Entries.{entries_from, entries_of, kept_at};
ghost use Rattle.form.specs.Form.{cell_length, end_length, entries_bytes, head_length};
ghost use Rattle.form.specs.Inner.{Written, one_of, slot_of};

use crate::inside::Section;
use crate::layout::{CELL_LENGTH, EMPTY_LENGTH, END_LENGTH, HEAD_LENGTH};
use crate::put::{put_head, put_record, put_tail};
use crate::record::Record;
use crate::records::Records;
use stand::volume::Volume;
use stand::volume::refusal::Refusal;
use stand::volume::view::View;

// The record of a slot, if it is occupied, where the output has room for it: the place after it.
// Kept: the place stands beside the output, and `Written` in each contract, here and in the next two; of a struct of both each function would promise besides that the output lent is the same one.
fn put_one(out: &mut [u8], at: usize, r: Record) -> usize
    requires { (r.within < 4096) × (at + cell_length < 18446744073709551616) }
    ensures { Written out.old out.new at (one_of (slot_of r) r.finish) result }
{
    if r.finish == 0 {
        return at;
    }
    let end = at + CELL_LENGTH;
    if end <= out.len() {
        put_record(out, at, r);
    }
    end
}

// The records of a section's occupied cells inside the stand, as far as the output has room: the place after them.
fn put_section(stand: View, section: u16, out: &mut [u8], from: usize) -> usize
    requires { (section < sections (shape_of stand.header.volume)) × (from ≤ 4294967296) }
    ensures { Written out.old out.new from (entries_from (kept_at (shape_of stand.entry.header.volume) stand.entry.cells.now) (section * 4096) 4096) result }
{
    let here = Section::at(stand.header, u32::from(section));
    let base = usize::from(section) * 4096;
    let mut at = from;
    for within in 0..4096u16 {
        let finish = here.kept(within, stand.cells[base + usize::from(within)]);
        at = put_one(
            out,
            at,
            Record {
                section,
                within,
                finish,
            },
        );
    }
    at
}

// The records of all occupied cells inside the stand, as far as the output has room: the place after them. Into no output at all they are counted.
fn put_records(stand: View, out: &mut [u8]) -> usize
    ensures { Written out.old out.new head_length (entries_of (shape_of stand.entry.header.volume) stand.entry.cells.now) result }
{
    let mut at = HEAD_LENGTH;
    for section in 0..stand.header.chunk_total() {
        at = put_section(stand, section as u16, out, at);
    }
    at
}

// The length of a stand's form.
fn form_length(stand: View) -> usize
    ensures { result ≡ length (stored_form stand.entry.header.volume stand.entry.cells.now) }
{
    put_records(stand, &mut []) + END_LENGTH
}

// The length of a stand's form; refuses by 3 and 4. Rules out a length from the header's solid, and cells beyond the size counted.
// Kept: two calls, since the length is asked for before there is an output; both begin with the view and count by the walk above.
#[tactic(auto, unfolding(crate::specs::Calls::stored_length), using(stand::proofs::Refusal::accepted))]
pub fn stored_length(v: Volume, cells: &[u16]) -> Result<u64, Refusal>
    ensures { answer_of result ≡ stored_length v cells.now }
{
    let stand = v.view(cells)?;
    Ok(form_length(stand) as u64)
}

// Head, records, and the digest of the records just written.
fn put_form(stand: View, out: &mut [u8])
    requires room { length (stored_form stand.header.volume stand.cells.now) ≤ length out.old }
    requires finishes { (k : ℕ) → slice_index stand.cells.now k < 65536 }
    ensures { out.new ≡ sets out.old 0 (stored_form stand.entry.header.volume stand.entry.cells.now) }
{
    put_head(stand.header, out);
    let end = put_records(stand, out);
    let records = Records {
        form: out,
        count: (end - HEAD_LENGTH) / CELL_LENGTH,
    };
    let digest = records.digest(stand.header);
    put_tail(out, end, digest);
}

// Writes a stand's form and answers its length; bytes after it keep; refuses by 3, 4 and 15. Rules out a byte written under a refusal, and a digest of the lent hashes.
#[tactic(auto, using(crate::proofs::store::Laws::store_short, crate::proofs::store::Laws::store_done))]
pub fn store(v: Volume, cells: &[u16], out: &mut [u8]) -> Result<u64, Refusal>
    ensures { storing_of (answer_of result) out.new ≡ store_call v cells.now out.old }
{
    let stand = v.view(cells)?;
    let length = form_length(stand);
    if out.len() < length {
        return Err(Refusal::OutputTooShort);
    }
    put_form(stand, out);
    Ok(length as u64)
}
