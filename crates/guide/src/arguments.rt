// The numbers that a command line gives a program.
ghost use Rattle.grammar.specs.Words.{meaning};
ghost use Rattle.guide.specs.RunReports.{Collects, IsMemory, argument_of, arguments_of, wrong_line};
ghost use Rattle.std.specs.Prelude.{◌≡◌, ℕ, List, map, IfOk, string_bytes};

use super::report::{OUT_OF_RANGE, Spot, refusal_line};
use codes::Refusal;
use lexer::command;
use std::alloc::{AllocError, AllocFailed, Global};
use syntax::Event;

// Why an argument was refused, and which one it is, counted from 1.
#[derive(Clone, Copy)]
pub struct WrongArgument {
    pub refusal: Refusal,
    pub at: usize,
}

// Why there are no numbers.
#[derive(Drop)]
pub enum ArgumentsError {
    // a word is wrong, and this is the first one
    Wrong(WrongArgument),
    // there is no memory for them
    Memory(AllocError),
}

// An allocation that failed leaves no numbers.
impl<T: Drop> From<AllocFailed<T>> for ArgumentsError {
    ghost from_gives = { λ _ e. IsMemory e };

    fn from(error: AllocFailed<T>) -> ArgumentsError {
        ArgumentsError::Memory(error.into())
    }
}

// The numbers that the words are, or the first wrong word.
pub(crate) fn arguments(heap: Global, words: &[String]) -> Result<Vec<i32>, ArgumentsError>
    ensures { Collects (arguments_of (map string_bytes words.now)) result }
{
    let mut numbers = Vec::new(heap);
    for (index, word) in words.iter().enumerate() {
        match argument(word.as_bytes()) {
            Ok(number) => numbers.push(number)?,
            Err(refusal) => return Err(ArgumentsError::Wrong(WrongArgument {
                refusal,
                at: index + 1,
            })),
        }
    }
    Ok(numbers)
}

// The number that a word is. A name is no number.
fn argument(word: &[u8]) -> Result<i32, Refusal>
    ensures { result ≡ argument_of (meaning word.now) }
{
    match command(word)? {
        Event::Numeral(number) => Ok(number),
        _ => Err(Refusal::Word),
    }
}

// The refusal, which argument it is, and what is wrong with it.
pub(crate) fn wrong_argument(heap: Global, wrong: WrongArgument) -> Result<String, AllocError>
    ensures { IfOk result (λ s. ((remark : List ℕ) × (string_bytes s ≡ wrong_line wrong remark))) }
{
    let remark = match wrong.refusal {
        Refusal::Range => OUT_OF_RANGE,
        _ => "this is no numeral",
    };
    refusal_line(heap, wrong.refusal, Spot::Argument(wrong.at), remark)
}
