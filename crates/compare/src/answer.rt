// What is said of a text and its arguments: a refusal, or how a run ended and how many steps it took.
use std::fmt;

// The number of a refusal. Numbers are what both sides are compared by, since they share no code that could name it.
#[derive(Clone, Copy, PartialEq)]
pub(crate) struct RefusalNumber(pub(crate) u8);

// The number of a fault, which is a number for the same reason.
#[derive(Clone, Copy, PartialEq)]
pub(crate) struct FaultNumber(pub(crate) u8);

// How a run ends: with a number, or with a fault.
pub(crate) type Ending = Result<i64, FaultNumber>;

// How a run ends, and how many commands it began.
#[derive(Clone, Copy, PartialEq)]
pub(crate) struct Answer {
    pub(crate) ending: Ending,
    pub(crate) steps: u32,
}

// What the run gives, or the refusal of the text.
pub(crate) type Verdict = Result<Answer, RefusalNumber>;

// The number with what it counts.
impl fmt::Display for RefusalNumber {
    fn fmt<W: fmt::Write>(&self, f: &mut fmt::Formatter<W>) -> fmt::Result {
        write!(f, "refusal {}", self.0)
    }
}

// The number with what it counts.
impl fmt::Display for FaultNumber {
    fn fmt<W: fmt::Write>(&self, f: &mut fmt::Formatter<W>) -> fmt::Result {
        write!(f, "fault {}", self.0)
    }
}

// A line for people.
impl fmt::Display for Answer {
    fn fmt<W: fmt::Write>(&self, f: &mut fmt::Formatter<W>) -> fmt::Result {
        match self.ending {
            Ok(number) => write!(f, "number {number}")?,
            Err(fault) => write!(f, "{fault}")?,
        }
        write!(f, " after {} steps", self.steps)
    }
}

// A verdict as it is printed, which is a type of its own since a Result has no Display.
#[derive(Clone, Copy)]
pub(crate) struct Shown(pub(crate) Verdict);

// The answer, or the refusal.
impl fmt::Display for Shown {
    fn fmt<W: fmt::Write>(&self, f: &mut fmt::Formatter<W>) -> fmt::Result {
        match self.0 {
            Ok(answer) => write!(f, "{answer}"),
            Err(refusal) => write!(f, "{refusal}"),
        }
    }
}
