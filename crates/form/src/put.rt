// A form's bytes written: little-endian numbers, and a record of each kind.
ghost use Rattle.std.specs.Prelude.{◌≡◌, ◌<◌, ◌≤◌, ◌+◌, length};
ghost use Rattle.std.proofs.lemmas.List.Edits.{sets};
ghost use Rattle.stand.specs.Shape.{shape_of};
ghost use Rattle.form.specs.Entries.{entry_of};
ghost use Rattle.form.specs.Form.{cell_length, end_length, entry_bytes, head_bytes, head_length, tail_bytes};
ghost use Rattle.form.specs.Inner.{slot_of, three_bytes};

use crate::layout::Kind;
use crate::record::Record;
use stand::volume::formed::Formed;

// Bytes from a place on.
fn put(out: &mut [u8], at: usize, bytes: &[u8])
    requires { at + length bytes.now ≤ length out.old }
    ensures { out.new ≡ sets out.old at bytes.now }
{
    out[at..at + bytes.len()].copy_from_slice(bytes);
}

// Three u32 from a place on.
#[tactic(auto, unfolding(crate::specs::Inner::three_bytes), using(crate::proofs::put::Laws::sets_append, crate::proofs::put::Laws::word_le))]
fn put_three(out: &mut [u8], at: usize, x: u32, y: u32, z: u32)
    requires { at + 12 ≤ length out.old }
    ensures { out.new ≡ sets out.old at (three_bytes x y z) }
{
    put(out, at, &x.to_le_bytes());
    put(out, at + 4, &y.to_le_bytes());
    put(out, at + 8, &z.to_le_bytes());
}

// The head: origin and size.
pub(crate) fn put_head(header: Formed, out: &mut [u8])
    requires { head_length ≤ length out.old }
    ensures { out.new ≡ sets out.old 0 (head_bytes (shape_of header.volume)) }
{
    let o = header.volume.origin;
    let n = header.volume.size;
    put(out, 0, &[Kind::Head as u8]);
    put_three(
        out,
        1,
        o.x.cast_unsigned(),
        o.y.cast_unsigned(),
        o.z.cast_unsigned(),
    );
    put_three(
        out,
        13,
        n.x.cast_unsigned(),
        n.y.cast_unsigned(),
        n.z.cast_unsigned(),
    );
}

// The record of a cell.
#[tactic(auto, unfolding(crate::specs::Form::entry_bytes, arith::specs::Bytes::short_bytes), using(crate::proofs::put::Laws::sets_append))]
pub(crate) fn put_record(out: &mut [u8], at: usize, r: Record)
    requires { (r.within < 4096) × (at + cell_length ≤ length out.old) }
    ensures { out.new ≡ sets out.old at (entry_bytes (entry_of (slot_of r) r.finish)) }
{
    put(out, at, &[Kind::Cell as u8]);
    put(out, at + 1, &r.section.to_le_bytes());
    put(out, at + 3, &r.within.to_le_bytes());
    put(out, at + 5, &r.finish.to_le_bytes());
}

// The end: the digest.
#[tactic(auto, unfolding(crate::specs::Form::tail_bytes), using(crate::proofs::put::Laws::sets_append, crate::proofs::put::Laws::double_le))]
pub(crate) fn put_tail(out: &mut [u8], at: usize, digest: u64)
    requires { at + end_length ≤ length out.old }
    ensures { out.new ≡ sets out.old at (tail_bytes digest) }
{
    put(out, at, &[Kind::End as u8]);
    put(out, at + 1, &digest.to_le_bytes());
}
