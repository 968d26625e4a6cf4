// Document 01's trial program: calls as bytes on standard input, price lines and refusals on standard output.
#![tactic(auto)]

use interpreter::program::Program;
use std::io;
use std::io::{Read, Write};

mod turn;

use turn::turn;

// Makes the calls of a script, one after another, until it ends or one is broken.
// Kept: like `quote`'s, but a turn there answers a fault with its line; shared, it would be a closure over reader, writer and program. Those two go side by side, here and in `turn`, since a struct of both is no shorter.
fn run_all<R: Read, W: Write>(input: &mut R, output: &mut W, program: &mut Program) {
    // Kept: a loop is proved to end, and a reader may go on for ever; no script has this many calls.
    for _ in 0..u64::MAX {
        if !turn(input, output, program) {
            return;
        }
    }
}

fn main(rt: HostRuntime) {
    let mut input = rt.stdin();
    let mut output = io::writer(&rt);
    let mut program = Program::new();
    run_all(&mut input, &mut output, &mut program);
}
