// Calls with the answers they must have, read as a text, made and compared (docs/CASES.md).
#![tactic(auto)]

mod answer;
mod args;
mod call;
mod cells;
mod compare;
mod edits;
mod fault;
mod keep;
mod list;
mod measures;
mod panels;
mod parse;
mod replies;
mod sections;
mod stage;
mod staging;
mod turn;
mod word;
mod words;

use stage::Stage;
use std::io;
use std::io::Write;
use turn::turn;

// Makes the calls of the lines, one after another, until they end or one is no call: after it no answer would be right.
fn main(rt: HostRuntime) {
    let mut input = rt.stdin();
    let mut output = io::writer(&rt);
    let mut stage = Stage::first();
    // More lines than a text can have.
    for number in 1..=u64::MAX {
        match turn(&mut input, &mut output, number, &mut stage) {
            Ok(true) => {}
            Ok(false) => {
                let _ = writeln!(output, "{}", stage.tally);
                return;
            }
            Err(fault) => {
                let _ = writeln!(output, "line {number}: {fault}");
                return;
            }
        }
    }
}
