// The line that a reply prints (document 01, 'Trial program'), in ASCII.
ghost use Rattle.std.specs.Prelude.{◌≡◌, ◌+◌, ◌≤◌, drop, length, take};
ghost use Rattle.io.specs.Counts.{IsPrefixLen};
ghost use Rattle.interpreter.specs.Line.{Appended, item, line_of};

use crate::Reply;
use io::decimal;
use sheet::Row;

// Puts the reply's line at the start of out, and answers its length. Rules out a line with no end, zeros in front of a number, another order of the numbers, and a byte changed behind the line.
// Kept: bytes in a buffer of fixed length, here and below, so that a line is one write and nothing can fail; a Display fails where its writer does. This public call lends the bytes and answers their end, so the calls below, with `Appended`, do too.
#[tactic(auto, unfolding(crate::specs::Line::line_of))]
pub fn write_line(reply: Reply, out: &mut [u8; 96]) -> usize
    ensures prefix_len { IsPrefixLen result out.new }
    ensures out_after { (take result out.new ≡ line_of reply) × (drop result out.new ≡ drop result out.old) }
{
    match reply {
        Reply::Quiet => 0,
        Reply::Price(generation, row) => write_price(generation, row, out),
        Reply::Refused(number) => write_refused(number, out),
        Reply::Broken => append(b"broken\n", out, 0),
    }
}

fn write_price(generation: u64, row: Row, out: &mut [u8; 96]) -> usize
    ensures { Appended (line_of (Reply.Price generation row)) out.old 0 out.new result }
{
    let after_generation = append_number(generation, b' ', out, 0);
    let after_panels = append_number(row.panels, b' ', out, after_generation);
    let after_faces = append_number(row.faces, b' ', out, after_panels);
    append_number(row.cents, b'\n', out, after_faces)
}

#[tactic(auto, unfolding(crate::specs::Line::line_of), using(crate::proofs::Writing::behind))]
fn write_refused(number: u32, out: &mut [u8; 96]) -> usize
    ensures { Appended (line_of (Reply.Refused number)) out.old 0 out.new result }
{
    let at = append(b"refused ", out, 0);
    append_number(u64::from(number), b'\n', out, at)
}

// Puts a number and the byte after it behind the first `at` bytes of out, and answers where they end.
fn append_number(n: u64, after: u8, out: &mut [u8; 96], at: usize) -> usize
    requires { at + 21 ≤ 96 }
    ensures appended { Appended (item n after) out.old at out.new result }
    ensures upper_bound { result ≤ at + 21 }
{
    let mut digits = [0u8; 20];
    let k = decimal(n, &mut digits);
    let end = append(&digits[..k], out, at);
    out[end] = after;
    end + 1
}

// The same of a text.
#[tactic(auto, using(crate::proofs::Writing::copied))]
fn append(text: &[u8], out: &mut [u8], at: usize) -> usize
    requires { at + length text.now ≤ length out.old }
    ensures appended { Appended text.now out.old at out.new result }
    ensures value { result ≡ at + length text.now }
{
    let end = at + text.len();
    out[at..end].copy_from_slice(text);
    end
}
