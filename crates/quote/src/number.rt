// Numbers as words: decimal digits, before which a coordinate may have a '-'.
ghost use Rattle.std.specs.Prelude.{◌≡◌, ◌≤◌, IfOk, fold};
ghost use Rattle.std.specs.Char.{is_ascii_digit};
ghost use Rattle.std.specs.List.{list_all};
ghost use Rattle.quote.specs.Number.{add_held, digits_of, amount_of, coordinate_of};

use crate::fault::Fault;

// Whether there are digits alone.
fn all_digits(word: &[u8]) -> bool
    ensures { result ≡ list_all is_ascii_digit word.now }
{
    word.iter().all(|b| b.is_ascii_digit())
}

// The number that digits say, held to the most of a u64.
fn value(digits: &[u8]) -> u64
    ensures { result ≡ fold add_held 0 digits.now }
{
    digits.iter().fold(0u64, |n, b| {
        n.saturating_mul(10)
            .saturating_add(u64::from(b.saturating_sub(b'0')))
    })
}

// The number of a word, held alike; none where the word is no number.
// Kept: `parse` of the library takes a text, and a '+'; `digits` of `cases` refuses a number of any place too large, where this holds it and the limit refuses.
#[tactic(auto, unfolding(crate::specs::Number::digits_of, crate::specs::Number::is_number, crate::specs::Number::value_of), using(crate::proofs::Decimal::held))]
fn read_digits(word: &[u8]) -> Option<u64>
    ensures { result ≡ digits_of word.now }
{
    (!word.is_empty() && all_digits(word)).then(|| value(word))
}

// A number that its place holds up to a limit. Rules out a number cut down to fit; no place holds the most of a u64.
#[tactic(auto, unfolding(crate::specs::Number::amount_of, crate::specs::Number::digits_of))]
pub(crate) fn read_amount(word: &[u8], limit: u32) -> Result<u32, Fault>
    ensures amount { result ≡ amount_of word.now limit }
    ensures within { IfOk result (λ n. n ≤ limit) }
{
    let n = read_digits(word).ok_or(Fault::NotANumber)?;
    match u32::try_from(n) {
        Ok(n) if n <= limit => Ok(n),
        _ => Err(Fault::NumberTooLarge),
    }
}

// A coordinate. Rules out a sign dropped, and an end of i32 refused.
#[tactic(auto, unfolding(crate::specs::Number::coordinate_of))]
pub(crate) fn read_coordinate(word: &[u8]) -> Result<i32, Fault>
    ensures { result ≡ coordinate_of word.now }
{
    match word {
        [b'-', digits @ ..] => {
            let n = read_amount(digits, i32::MIN.unsigned_abs())?;
            Ok((-i64::from(n)) as i32)
        }
        _ => Ok(read_amount(word, i32::MAX.unsigned_abs())? as i32),
    }
}
