// Lines of a text that a reader gives.
#![tactic(auto)]

ghost use Rattle.std.specs.Prelude.{◌≡◌, [], ◌∷◌, length, option_copied, MatchOption};
ghost use Rattle.std.specs.Io.KnownBytes.{Consumes, Keeps};
ghost use Rattle.lines.specs.Line.{ReadsLine, last_line};

use std::io::Read;

// A line that does not fit the list that is lent for it.
#[derive(Clone, Copy, Debug, PartialEq, Eq)]
pub struct TooLong;

// The next line, its end not counted, in the list that is lent for it; none where the text is over. A last line may have no end, and a read that fails ends
// the text. Refuses a line that leaves no room in the list, its end not read.
// Rules out, of a reader whose bytes are known, an end inside a line, a byte passed over or read behind the line, an empty last line, and a refusal while
// there is room. That a text ends early it does not rule out: no clause says which reads fail.
pub fn read_line<'a, R: Read>(
    input: &mut R,
    line: &'a mut [u8],
) -> Result<Option<&'a [u8]>, TooLong>
    ensures { ReadsLine (R.remaining input.old) (R.remaining input.new) (length line.old) result }
{
    for n in 0..line.len() {
        match next_byte(input) {
            None => return Ok(ended(&line[..n])),
            Some(b'\n') => return Ok(Some(&line[..n])),
            Some(b) => line[n] = b,
        }
    }
    Err(TooLong)
}

// One byte; none where the input ends or the read fails.
fn next_byte<R: Read>(input: &mut R) -> Option<u8>
    ensures { MatchOption result
        (Keeps (R.remaining input.old) (R.remaining input.new))
        (λ b. Consumes (R.remaining input.old) (R.remaining input.new) (b ∷ [])) }
{
    let mut byte = [0u8; 1];
    match input.read(&mut byte) {
        Ok(0) | Err(_) => None,
        Ok(_) => Some(byte[0]),
    }
}

// Where the text ends: a last line may have no end.
#[tactic(auto, unfolding(crate::specs::Line::last_line))]
fn ended(line: &[u8]) -> Option<&[u8]>
    ensures { option_copied result ≡ last_line line.now }
{
    (!line.is_empty()).then_some(line)
}
