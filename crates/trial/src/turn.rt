// One call: read, made and answered.
ghost use Rattle.std.specs.Prelude.{◌≡◌, ◌≤◌, max, not, length};
ghost use Rattle.interpreter.specs.Decode.{length_of};
ghost use Rattle.interpreter.specs.Script.{is_broken};

use interpreter::Reply;
use interpreter::decode::call_length;
use interpreter::line::write_line;
use interpreter::program::Program;
use std::io::{Read, Write};

// The bytes to read of a call, its kind byte among them: that byte alone where the kind is unknown.
// Kept: the kind is the byte as read, for the reason told at `call_length`.
fn to_read(kind: u8) -> usize
    ensures { (result ≡ max 1 (length_of kind)) × (result ≤ 27) }
{
    call_length(kind).max(1)
}

// Reads until the list is full or the input ends; how many bytes are then at the list's start.
// Kept: `read_exact` does not answer how many bytes there were, and a call cut short must be told from none; here and in the next two, list and count go as in `Read::read`.
fn read_full<R: Read>(input: &mut R, bytes: &mut [u8]) -> usize
    ensures { result ≤ length bytes.new }
{
    let mut done = 0;
    while done < bytes.len() {
        let got = read_some(input, &mut bytes[done..]);
        if got == 0 {
            return done;
        }
        done += got;
    }
    done
}

// One read; 0 where the input ends or the read fails.
// Kept: 0 is what `read` itself answers at the end, and a failed read ends the script alike; an Option would be a second way to say so.
fn read_some<R: Read>(input: &mut R, bytes: &mut [u8]) -> usize
    ensures { result ≤ length bytes.new }
{
    input.read(bytes).unwrap_or(0)
}

// Reads a call up to its nth byte, behind its kind; how many bytes it then has.
fn read_body<R: Read>(input: &mut R, bytes: &mut [u8], n: usize) -> usize
    requires { (1 ≤ n) × (n ≤ length bytes.old) }
    ensures { result ≤ n }
{
    read_full(input, &mut bytes[1..n]) + 1
}

// Writes the line of a reply; a write that fails is passed over.
// Kept: three lines, as in `quote`; shared, they would be a public call with a contract and edits of its own, and the line is bytes, not a Display, as told at `write_line`.
fn print<W: Write>(output: &mut W, reply: Reply) {
    let mut out = [0u8; 96];
    let n = write_line(reply, &mut out);
    let _ = output.write_all(&out[..n]);
}

// Whether the script goes on after a reply.
fn goes_on(reply: Reply) -> bool
    ensures { result ≡ not (is_broken reply) }
{
    !matches!(reply, Reply::Broken)
}

// Whether the script goes on after its next call.
// Kept: an early return, since nothing else is done where there is no call.
pub(crate) fn turn<R: Read, W: Write>(
    input: &mut R,
    output: &mut W,
    program: &mut Program,
) -> bool {
    let mut bytes = [0u8; 27];
    if read_full(input, &mut bytes[..1]) == 0 {
        return false;
    }
    let n = to_read(bytes[0]);
    let end = read_body(input, &mut bytes, n);
    let reply = program.step(&bytes[..end]);
    print(output, reply);
    goes_on(reply)
}
