// The program that people run: a command line over the toolkit.
#![tactic(auto)]

ghost use Rattle.guide.specs.Reports.{Printed};

mod arguments;
mod input;
mod outcome;
mod report;

use anyhow::anyhow;
use input::read_input;
use outcome::run_report;
use report::{ReportError, read_report};
use std::env;
use std::process::ExitCode;

// How the program is called.
const USAGE: &str = "usage:
  guide read FILE                read the rule in FILE and print it in its standard form
  guide run FILE [NUMBER ...]    run the rule in FILE on these numbers
standard input is read where FILE is -";

// Where a command ends with an error, what there is to say of it has been said: status 1 is all that is added.
fn main(rt: HostRuntime) -> ExitCode {
    match run_command(&rt) {
        Ok(()) => ExitCode::SUCCESS,
        Err(_) => ExitCode::FAILURE,
    }
}

// Does what the command line asks for.
fn run_command(rt: &HostRuntime) -> anyhow::Result<()> {
    let mut words = match env::args(rt) {
        Ok(words) => words,
        Err(error) => {
            eprintln!(rt; "cannot read the arguments, which have to be UTF-8: {error}")?;
            return Err(anyhow!("no arguments"));
        }
    };
    let _program = words.next();
    let Some(name) = words.next() else {
        rt.println(USAGE)?;
        return Ok(());
    };
    if let Some(file) = words.next() {
        let more = words.collect::<Vec<String>>(rt.alloc())?;
        match name.as_str() {
            "read" if more.is_empty() => return run_read(rt, file.as_str()),
            "run" => return run_rule(rt, file.as_str(), more.as_slice()),
            _ => {}
        }
    }
    rt.eprintln(USAGE)?;
    Err(anyhow!("no such command"))
}

// Reads a rule and prints it, or its refusal.
fn run_read(rt: &HostRuntime, file: &str) -> anyhow::Result<()> {
    let text = text_of(rt, file)?;
    tell(rt, read_report(rt.alloc(), text.as_slice()))
}

// Reads a rule, runs it on the numbers and prints what it comes to, or a refusal.
fn run_rule(rt: &HostRuntime, file: &str, numbers: &[String]) -> anyhow::Result<()> {
    let text = text_of(rt, file)?;
    tell(rt, run_report(rt.alloc(), text.as_slice(), numbers))
}

// The bytes of a file, or of standard input for `-`; a file that cannot be read is told.
fn text_of(rt: &HostRuntime, file: &str) -> anyhow::Result<Vec<u8>> {
    match read_input(rt, file) {
        Ok(text) => Ok(text),
        Err(error) => {
            eprintln!(rt; "cannot read {file}: {error}")?;
            Err(anyhow!("no input"))
        }
    }
}

// What is printed of a report, and whether it tells no refusal. Nothing is printed of a report that could not be made.
fn printed(report: Result<String, ReportError>) -> anyhow::Result<(String, bool)>
    ensures { Printed report result }
{
    match report {
        Ok(lines) => Ok((lines, true)),
        Err(ReportError::Refused(lines)) => Ok((lines, false)),
        Err(ReportError::Memory(error)) => Err(error.into()),
        Err(ReportError::NoText(error)) => Err(error.into()),
    }
}

// Prints a report, a refusal too by the same line, so that the stored output holds both. A refusal ends the program with
// status 1.
fn tell(rt: &HostRuntime, report: Result<String, ReportError>) -> anyhow::Result<()> {
    let (lines, accepted) = printed(report)?;
    rt.print(lines.as_str())?;
    if accepted {
        Ok(())
    } else {
        Err(anyhow!("refused"))
    }
}
