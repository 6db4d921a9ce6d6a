// What a word is: a numeral, a name, or neither.
ghost use Rattle.std.specs.Prelude.{◌≡◌};
ghost use Rattle.grammar.specs.Words.{meaning};
ghost use Rattle.lexer.specs.Wording.{Digits, Names, Reads, Within, told};

use codes::Refusal;
use syntax::{Event, Name, Operator};

// Why a word is no number of the language.
#[derive(Clone, Copy, PartialEq, Eq, Debug)]
pub enum NumeralError {
    OutOfRange,
    NoNumeral,
}

// No word of digits is given a larger value than this, which lies far outside the range of numbers and far below the end of
// 64 bits.
const HELD: u64 = 4294967296;

// The value of a word of digits, or 2^32 if the value is larger. A word that is not made of digits has no value.
pub fn digits(word: &[u8]) -> Option<u64>
    ensures { Digits word.now result }
{
    if word.is_empty() {
        return None;
    }
    word.iter().try_fold(0, |all, byte| {
        let digit = char::from(*byte).to_digit(10)?;
        Some(HELD.min(all * 10 + u64::from(digit)))
    })
}

// The number with this value, if it is in range.
fn number(value: i64) -> Result<i32, NumeralError>
    ensures { Within value result }
{
    i32::try_from(value).map_err(|_| NumeralError::OutOfRange)
}

// The number that a word writes, if it is a numeral in range.
pub fn numeral(word: &[u8]) -> Result<i32, NumeralError>
    ensures { Reads word.now result }
{
    let (sign, unsigned) = match word {
        [b'-', unsigned @ ..] => (-1, unsigned),
        _ => (1, word),
    };
    // at most 2^32, so it fits
    let size = digits(unsigned).ok_or(NumeralError::NoNumeral)? as i64;
    number(sign * size)
}

// The name that has this word.
pub fn name(word: &[u8]) -> Option<Name>
    ensures { Names word.now result }
{
    let name = match word {
        b"add" => Name::Operator(Operator::Add),
        b"div" => Name::Operator(Operator::Div),
        b"eq" => Name::Operator(Operator::Eq),
        b"exec" => Name::Exec,
        b"gt" => Name::Operator(Operator::Gt),
        b"lt" => Name::Operator(Operator::Lt),
        b"mul" => Name::Operator(Operator::Mul),
        b"nget" => Name::Nget,
        b"pop" => Name::Pop,
        b"rem" => Name::Operator(Operator::Rem),
        b"sel" => Name::Sel,
        b"sub" => Name::Operator(Operator::Sub),
        b"swap" => Name::Swap,
        _ => return None,
    };
    Some(name)
}

// The command that a word is, or why it is none.
pub fn command(word: &[u8]) -> Result<Event, Refusal>
    ensures { result ≡ told (meaning word.now) }
{
    match numeral(word) {
        Ok(number) => Ok(Event::Numeral(number)),
        Err(NumeralError::OutOfRange) => Err(Refusal::Range),
        Err(NumeralError::NoNumeral) => name(word).map(Event::Name).ok_or(Refusal::Word),
    }
}
