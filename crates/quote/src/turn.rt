// One line: read, and its call made.
use crate::fault::Fault;
use crate::parse::parse;
use interpreter::Reply;
use interpreter::program::Program;
use lines::read_line;
use std::io::Read;

// The reply to the next line's call, quiet for a line with none; none where the text is over. After a fault no price would be right.
pub(crate) fn turn<R: Read>(input: &mut R, program: &mut Program) -> Result<Option<Reply>, Fault> {
    let mut bytes = [0u8; 256];
    let Some(line) = read_line(input, &mut bytes)? else {
        return Ok(None);
    };
    let Some(call) = parse(line)? else {
        return Ok(Some(Reply::Quiet));
    };
    Ok(Some(program.run(call)))
}
