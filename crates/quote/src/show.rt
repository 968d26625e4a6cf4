// Replies and faults, written to standard output. A write that fails is passed over.
use crate::fault::Fault;
use interpreter::Reply;
use interpreter::line::write_line;
use std::io::Write;

// Kept: three lines, as in `trial`; shared, they would be a public call with a contract and edits of its own, and the line is bytes, not a Display, as told at `write_line`.
pub(crate) fn reply<W: Write>(output: &mut W, r: Reply) {
    let mut out = [0u8; 96];
    let n = write_line(r, &mut out);
    let _ = output.write_all(&out[..n]);
}

// Which line is bad, and why.
pub(crate) fn fault<W: Write>(output: &mut W, line: u64, f: Fault) {
    let _ = writeln!(output, "line {line}: {f}");
}
