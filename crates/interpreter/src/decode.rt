// The bytes of a call (document 01, 'Trial program'): a kind byte, then a little-endian body.
ghost use Rattle.std.specs.Prelude.{◌≡◌, ◌≤◌};
ghost use Rattle.interpreter.specs.Decode.{call_of, cell_at, decode_of, length_of};

use crate::Call;
use arith::bytes::{byte, short, signed, word};
use stand::Cell;
use stand::volume::Extent;

// The bytes of a call of this kind, the kind byte among them; 0 for an unknown kind. Rules out the body alone, and a length for kind 0.
// Kept: the kind byte is matched as it is, once for the length, which a reader wants first, and once for the body; an enum of kinds would be a third match. The 0 is what this public call promises.
#[tactic(auto, unfolding(crate::specs::Decode::length_of))]
pub fn call_length(kind: u8) -> usize
    ensures { (result ≡ length_of kind) × (result ≤ 27) }
{
    match kind {
        1 => 25,
        2 => 15,
        3 => 27,
        4 => 1,
        5 => 7,
        6 => 5,
        _ => 0,
    }
}

// The call that the bytes start with, none where the kind is unknown or the body short; bytes after it are not looked at. Rules out a call of a short body, and big-endian numbers.
#[tactic(auto, unfolding(crate::specs::Decode::decode_of, crate::specs::Decode::whole))]
pub fn decode(bytes: &[u8]) -> Option<Call>
    ensures { result ≡ decode_of bytes.now }
{
    let kind = byte(bytes, 0);
    let n = call_length(kind);
    (0 < n && n <= bytes.len()).then(|| body(kind, bytes))
}

// The call of a known kind, the last for all others.
#[tactic(auto, unfolding(crate::specs::Decode::call_of, crate::specs::Decode::extent_at))]
fn body(kind: u8, bytes: &[u8]) -> Call
    ensures { result ≡ call_of kind bytes.now }
{
    match kind {
        1 => Call::Open(cell(bytes, 1), Extent::from(cell(bytes, 13))),
        2 => Call::Set(cell(bytes, 1), short(bytes, 13)),
        3 => Call::Fill(cell(bytes, 1), cell(bytes, 13), short(bytes, 25)),
        4 => Call::Refresh,
        5 => Call::Rate(short(bytes, 1), word(bytes, 3)),
        _ => Call::Cut(word(bytes, 1)),
    }
}

// Kept: `form` reads its head by the same three lines; one function in a crate below both would add a public contract with edits of its own, and is no plainer.
#[tactic(auto, unfolding(crate::specs::Decode::cell_at))]
fn cell(bytes: &[u8], at: usize) -> Cell
    requires { at ≤ 13 }
    ensures { result ≡ cell_at bytes.now at }
{
    Cell {
        x: signed(bytes, at),
        y: signed(bytes, at + 4),
        z: signed(bytes, at + 8),
    }
}
