// A line, parsed into a call.
ghost use Rattle.std.specs.Prelude.{◌≡◌};
ghost use Rattle.quote.specs.Fields.{left};
ghost use Rattle.quote.specs.Parse.{call_of, parse_of};

use crate::fault::Fault;
use crate::verb::Verb;
use crate::words::Words;
use interpreter::Call;
use stand::volume::Extent;

// The call that a verb and the words after it say. Rules out a call with a field of another.
fn parse_call(verb: Verb, words: &mut Words) -> Result<Call, Fault>
    ensures { left result words.new.rest.now ≡ call_of verb words.old.rest.now }
{
    // Kept: a table of closures by verb would be no plainer than these six lines, each with its own fields.
    match verb {
        Verb::Open => Ok(Call::Open(words.cell()?, Extent::from(words.cell()?))),
        Verb::Set => Ok(Call::Set(words.cell()?, words.finish()?)),
        Verb::Fill => Ok(Call::Fill(words.cell()?, words.cell()?, words.finish()?)),
        Verb::Refresh => Ok(Call::Refresh),
        Verb::Rate => Ok(Call::Rate(words.finish()?, words.cents()?)),
        Verb::Cut => Ok(Call::Cut(words.cents()?)),
    }
}

// None for an empty line, or a comment alone. Rules out a word left unread, and a fault that is not the line's first.
#[tactic(auto, unfolding(crate::specs::Parse::parse_of))]
pub(crate) fn parse(line: &[u8]) -> Result<Option<Call>, Fault>
    ensures { result ≡ parse_of line.now }
{
    let mut words = Words { rest: line };
    let Some(name) = words.next_word() else {
        return Ok(None);
    };
    let verb = Verb::try_from(name)?;
    let call = parse_call(verb, &mut words)?;
    match words.next_word() {
        None => Ok(Some(call)),
        Some(_) => Err(Fault::ExtraWord),
    }
}
