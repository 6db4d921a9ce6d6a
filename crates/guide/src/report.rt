// What is said of a text: the program in its standard form, or the refusal and where the wrong token stands.
ghost use Rattle.guide.specs.Reports.{IsOutOfMemory, RefusedLine, Standard, Told, counts_of, refused_line, spot_of, spot_text};
ghost use Rattle.program.specs.Programs.{program_of};
ghost use Rattle.std.specs.Prelude.{◌≡◌, ◌++◌, IfOk, Some, string_bytes};
ghost use Rattle.grammar.specs.Reading.{parse};

use codes::Refusal;
use printer::print;
use program::Program;
use reader::{Position, ReadError, locate, read};
use std::alloc::{AllocError, Global};
use std::fmt;
use std::str::{Utf8Error, from_utf8};
use syntax::{MOST_BYTES, WORKING_PLACES};

// What is wrong with a numeral out of range, in words.
pub(crate) const OUT_OF_RANGE: &str = "a numeral is from -2147483648 to 2147483647";

// Why a report does not tell what was asked for.
#[derive(Drop)]
pub enum ReportError {
    // it is refused, and these lines say so
    Refused(String),
    // there is no memory for the report
    Memory(AllocError),
    // what was printed is no text that can be shown
    NoText(Utf8Error),
}

// An allocation that failed leaves no report.
impl From<AllocError> for ReportError {
    ghost from_gives = { λ _ e. IsOutOfMemory e };

    fn from(error: AllocError) -> ReportError {
        ReportError::Memory(error)
    }
}

// What a refusal is about.
#[derive(Clone, Copy)]
pub enum Spot {
    // nothing is to blame
    Nowhere,
    // a token of the text, by where it begins
    Token(Position),
    // an argument, counted from 1
    Argument(usize),
}

// As it stands in a line behind the refusal.
impl fmt::Display for Spot {
    ghost output = { λ s. Some (spot_text s) };

    fn fmt<W: fmt::Write>(&self, f: &mut fmt::Formatter<W>) -> fmt::Result {
        match self {
            Spot::Nowhere => Ok(()),
            Spot::Token(here) => write!(f, " at line {}, column {}", here.line, here.column),
            Spot::Argument(at) => write!(f, " at argument {at}"),
        }
    }
}

// What is said of a text. Both outcomes stand together here, so that neither can be told as the other unseen.
pub(crate) fn read_report(heap: Global, text: &[u8]) -> Result<String, ReportError>
    ensures { Told text.now (parse text.now) result }
{
    let mut program = Program::new();
    let mut brackets = [0u16; WORKING_PLACES];
    match read(text, &mut brackets, &mut program) {
        Ok(()) => standard_form(heap, &program),
        Err(error) => Err(ReportError::Refused(refusal(heap, text, error)?)),
    }
}

// The program's text, and a line of its counts. The lent memory is enough for every program.
fn standard_form(heap: Global, program: &Program) -> Result<String, ReportError>
    ensures { Standard (program_of program.now) result }
{
    let mut chains = [0u16; WORKING_PLACES];
    let mut out = [0u8; MOST_BYTES];
    let len = print(program, &mut chains, &mut out).unwrap();
    let text = from_utf8(&out[..len]).map_err(ReportError::NoText)?;
    Ok(with_counts(heap, text, program)?)
}

// A line, and a line of the program's counts behind it.
fn with_counts(heap: Global, line: &str, program: &Program) -> Result<String, AllocError>
    ensures { IfOk result (λ s. string_bytes s ≡ line.now ++ counts_of (program_of program.now)) }
{
    let parameters = program.parameters();
    let commands = program.commands();
    let sequences = program.sequences();
    format!(in heap;
        "{line}\nparameters {parameters}, commands {commands}, sequences {sequences}\n"
    )
}

// The refusal, where the wrong token stands if one is to blame, and what is wrong with it.
pub(crate) fn refusal(heap: Global, text: &[u8], error: ReadError) -> Result<String, AllocError>
    ensures { IfOk result (λ s. RefusedLine text.now error (string_bytes s)) }
{
    let remark = if text.is_empty() {
        "the text is empty"
    } else {
        reason(error)
    };
    refusal_line(heap, error.refusal, token_at(text, error.at), remark)
}

// The token at a place of the text, if there is one.
fn token_at(text: &[u8], at: Option<usize>) -> Spot
    ensures { result ≡ spot_of text.now at }
{
    match at {
        Some(at) => Spot::Token(locate(text, at)),
        None => Spot::Nowhere,
    }
}

// The line of a refusal.
pub(crate) fn refusal_line(
    heap: Global,
    code: Refusal,
    spot: Spot,
    remark: &str,
) -> Result<String, AllocError>
    ensures { IfOk result (λ s. string_bytes s ≡ refused_line code spot remark.now) }
{
    format!(in heap; "refused {code}{spot}: {remark}\n")
}

// What is wrong, in words.
fn reason(error: ReadError) -> &'static str {
    match (error.refusal, error.at) {
        (Refusal::Long, _) => "a text has at most 4096 bytes",
        (Refusal::Word, _) => "this is neither a name nor a numeral",
        (Refusal::Range, _) => OUT_OF_RANGE,
        (Refusal::Bracket, Some(_)) => "nothing may follow the program's last bracket",
        (Refusal::Bracket, None) => "the text ends before the program's last bracket",
        (Refusal::Head, Some(_)) => "a program begins with (postfix and a count from 0 to 8",
        (Refusal::Head, None) => "the text ends before a program begins",
        (Refusal::Crowd, _) => "this is one command more than the 255 that a program may have",
        _ => "this text cannot be read here",
    }
}

#[cfg(test)]
mod tests {
    use super::*;
    use std::process::Abort;
    use std::test::Fail;

    // What is said of a text: lines, or the lines of a refusal.
    fn says(
        rt: &(impl Abort + AllocGlobal),
        text: &[u8],
        expected: Result<&str, &str>,
    ) -> Result<(), Fail> {
        match (read_report(rt.alloc(), text), expected) {
            (Ok(told), Ok(lines)) | (Err(ReportError::Refused(told)), Err(lines)) => {
                assert!(rt; told.as_str() == lines, "{}", lines);
                Ok(())
            }
            _ => Err(Fail::new("accepted for refused, or refused for accepted")),
        }
    }

    #[test]
    fn refusals(rt: HostRuntime) -> Result<(), Fail> {
        says(&rt, b"", Err("refused 5 head: the text is empty\n"))?;
        says(
            &rt,
            b"(postfix 9)",
            Err(
                "refused 5 head at line 1, column 10: a program begins with (postfix and a count from 0 to 8\n",
            ),
        )?;
        says(
            &rt,
            b"(postfix 1\n\n  pop\n\t ad)",
            Err("refused 2 word at line 4, column 3: this is neither a name nor a numeral\n"),
        )?;
        says(
            &rt,
            b"(postfix 0 1",
            Err("refused 4 bracket: the text ends before the program's last bracket\n"),
        )
    }

    #[test]
    fn standard_form_and_counts(rt: HostRuntime) -> Result<(), Fail> {
        says(
            &rt,
            b"( postfix 02( )add)",
            Ok("(postfix 2 () add)\nparameters 2, commands 2, sequences 1\n"),
        )
    }
}
