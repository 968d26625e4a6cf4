// One line: read, its call made and its answer compared.
use crate::compare::{Difference, compare};
use crate::fault::Fault;
use crate::parse::{Case, parse};
use crate::stage::Stage;
use lines::read_line;
use std::io::{Read, Write};

// A call made and counted, and its answer compared where the line gives one.
fn run(stage: &mut Stage, case: Case) -> Option<Difference> {
    let answer = case.call.make(stage);
    let tally = &mut stage.tally;
    tally.calls = tally.calls.wrapping_add(1);
    let expected = case.expected?;
    tally.compared = tally.compared.wrapping_add(1);
    let difference = compare(expected, answer)?;
    tally.differ = tally.differ.wrapping_add(1);
    Some(difference)
}

// Whether there was a line. A write that fails is passed over.
// Kept: reader and writer side by side; a struct of both is no shorter, and nothing else takes both.
pub(crate) fn turn<R: Read, W: Write>(
    input: &mut R,
    output: &mut W,
    line_number: u64,
    stage: &mut Stage,
) -> Result<bool, Fault> {
    let mut bytes = [0u8; 4096];
    let Some(line) = read_line(input, &mut bytes)? else {
        return Ok(false);
    };
    if let Some(difference) = parse(line)?.and_then(|case| run(stage, case)) {
        let _ = writeln!(output, "line {line_number}: {difference}");
    }
    Ok(true)
}
