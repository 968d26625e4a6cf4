// The trial program for people: calls as lines of words on standard input, price lines and refusals on standard output.
#![tactic(auto)]

use interpreter::program::Program;
use std::io;
use std::io::{Read, Write};
use turn::turn;

mod fault;
mod fields;
mod number;
mod parse;
mod show;
mod turn;
mod verb;
mod words;

// Makes the calls of the lines, one after another, until they end or one is bad.
// Kept: like `trial`'s, but a turn here answers a fault, shown with its line; shared, it would be a closure over reader, writer and program. Those two go side by side, since a struct of both is no shorter.
fn run_all<R: Read, W: Write>(input: &mut R, output: &mut W, program: &mut Program) {
    // Kept: a loop is proved to end, and a reader may go on for ever; no text has this many lines.
    for line in 1..=u64::MAX {
        match turn(input, program) {
            Ok(Some(reply)) => show::reply(output, reply),
            Ok(None) => return,
            Err(fault) => return show::fault(output, line, fault),
        }
    }
}

fn main(rt: HostRuntime) {
    let mut input = rt.stdin();
    let mut output = io::writer(&rt);
    let mut program = Program::new();
    run_all(&mut input, &mut output, &mut program);
}
