// What is said of a run: its result and its steps, or why there is none.
ghost use Rattle.grammar.specs.Reading.{parse};
ghost use Rattle.guide.specs.RunReports.{Ran, RunTold, arguments_of, run_line};
ghost use Rattle.program.specs.Programs.{program_of};
ghost use Rattle.semantics.specs.Meaning.{run};
ghost use Rattle.std.specs.Prelude.{◌≡◌, map, Some, string_bytes};

use super::arguments::{ArgumentsError, arguments, wrong_argument};
use super::report::{ReportError, refusal};
use interpreter::run;
use program::Program;
use reader::read;
use semantics::{Run, Value};
use std::alloc::Global;
use std::fmt;
use syntax::WORKING_PLACES;

// What is said of a text whose program is to run on these words. The text is read first.
pub(crate) fn run_report(heap: Global, text: &[u8], words: &[String]) -> Result<String, ReportError>
    ensures { RunTold text.now (map string_bytes words.now) (parse text.now) result }
{
    let mut program = Program::new();
    let mut brackets = [0u16; WORKING_PLACES];
    match read(text, &mut brackets, &mut program) {
        Ok(()) => program_report(heap, &program, words),
        Err(error) => Err(ReportError::Refused(refusal(heap, text, error)?)),
    }
}

// What is said of a program on these words.
fn program_report(heap: Global, program: &Program, words: &[String]) -> Result<String, ReportError>
    ensures { Ran (program_of program.now) (arguments_of (map string_bytes words.now)) result }
{
    match arguments(heap, words) {
        Ok(numbers) => Ok(RunLine(run_on(program, numbers.as_slice())).to_string(heap)?),
        Err(ArgumentsError::Wrong(wrong)) => {
            Err(ReportError::Refused(wrong_argument(heap, wrong)?))
        }
        Err(ArgumentsError::Memory(error)) => Err(error.into()),
    }
}

// Runs the program on the numbers. The lent memory is enough for every program.
fn run_on(program: &Program, numbers: &[i32]) -> Run
    ensures { result ≡ run (program_of program.now) numbers.now }
{
    let mut values = [Value::Numeral(0); WORKING_PLACES];
    let mut chains = [0u16; WORKING_PLACES];
    run(program, numbers, &mut values, &mut chains).unwrap()
}

// A run, as the line that is said of it.
#[derive(Clone, Copy)]
pub struct RunLine(pub Run);

// What it came to, a fault too, and its steps.
impl fmt::Display for RunLine {
    ghost output = { λ l. Some (run_line l.0) };

    fn fmt<W: fmt::Write>(&self, f: &mut fmt::Formatter<W>) -> fmt::Result {
        let steps = self.0.spent.steps;
        match self.0.outcome {
            Ok(number) => write!(f, "result {number} in {steps} steps\n"),
            Err(fault) => write!(f, "fault {fault} in {steps} steps\n"),
        }
    }
}

#[cfg(test)]
mod tests {
    use super::*;
    use std::process::Abort;
    use std::test::Fail;

    // What is said of a text and words: lines, or the lines of a refusal.
    fn says(
        rt: &(impl Abort + AllocGlobal),
        text: &[u8],
        words: &str,
        expected: Result<&str, &str>,
    ) -> Result<(), Fail> {
        let mut arguments = Vec::new(rt.alloc());
        for word in words.split_whitespace() {
            arguments.push(String::from_str(rt.alloc(), word)?)?;
        }
        match (run_report(rt.alloc(), text, arguments.as_slice()), expected) {
            (Ok(told), Ok(lines)) | (Err(ReportError::Refused(told)), Err(lines)) => {
                assert!(rt; told.as_str() == lines, "{}", lines);
                Ok(())
            }
            _ => Err(Fail::new("accepted for refused, or refused for accepted")),
        }
    }

    #[test]
    fn results_and_faults(rt: HostRuntime) -> Result<(), Fail> {
        says(
            &rt,
            b"(postfix 2 sub)",
            "003 -9",
            Ok("result -12 in 1 steps\n"),
        )?;
        says(
            &rt,
            b"(postfix 1 add)",
            "3",
            Ok("fault 12 fault in 1 steps\n"),
        )?;
        says(
            &rt,
            b"(postfix 2 add)",
            "3",
            Ok("fault 11 fault in 0 steps\n"),
        )
    }

    #[test]
    fn refusals(rt: HostRuntime) -> Result<(), Fail> {
        says(
            &rt,
            b"(postfix 0 ad)",
            "x",
            Err("refused 2 word at line 1, column 12: this is neither a name nor a numeral\n"),
        )?;
        says(
            &rt,
            b"(postfix 0)",
            "5 add 2147483648",
            Err("refused 2 word at argument 2: this is no numeral\n"),
        )?;
        says(
            &rt,
            b"(postfix 0)",
            "2147483648 x",
            Err("refused 3 range at argument 1: a numeral is from -2147483648 to 2147483647\n"),
        )
    }
}
