// The closed lists of refusals and faults.
#![tactic(auto)]

ghost use Rattle.codes.specs.Codes.{CodesApart};

mod faults;
mod refusals;
#[cfg(test)]
mod tests;

// Why a call did nothing. Each has a number, which stands here, and a word; people and formats show both.
#[derive(Clone, Copy, PartialEq, Eq, Debug)]
pub enum Refusal {
    // a text is longer than a text may be
    Long = 1,
    // a word is neither a name nor a numeral
    Word = 2,
    // a numeral lies outside the range of numbers
    Range = 3,
    // a bracket, or a token after the end, or an end too early
    Bracket = 4,
    // the first three tokens are not as they should be
    Head = 5,
    // one command more than a program may have
    Crowd = 6,
    // bytes are no program's image
    Image = 21,
    // bytes are no book
    Book = 22,
    // every entry of a book is taken
    Full = 23,
    // an entry is named that is neither the head nor taken
    Link = 24,
    // lent memory is shorter than the call needs
    Space = 25,
    // the handset has no book
    Bare = 31,
    // more arguments than a visitor may bring
    Party = 32,
    // nothing is being decided
    Rest = 33,
}

// Why a run stopped with no number. A fault is a result, not a refusal. Its number stands here too.
#[derive(Clone, Copy, PartialEq, Eq, Debug)]
pub enum Fault {
    // a program got another number of arguments than it has parameters
    Arguments = 11,
    // the stack holds fewer values than the command takes
    Underflow = 12,
    // a value is no numeral where one is needed
    NoNumeral = 13,
    // a value is no sequence where one is needed
    NoSequence = 14,
    // a divisor is zero
    ZeroDivisor = 15,
    // an index lies outside the stack
    Index = 16,
    // the stack is empty after the last command
    Empty = 17,
    // a sequence is on top after the last command
    SequenceOnTop = 18,
}

// No two refusals, no two faults, and no refusal and a fault have one number.
pub fn numbers_tell_codes_apart()
    ensures { CodesApart }
{}
