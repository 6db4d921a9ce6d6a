// What each side says of a text: the toolkit, and the second reader and interpreter.
use crate::answer::{Answer, FaultNumber, RefusalNumber, Verdict};
use crate::reading::second_reading;
use crate::second::second_answer;
use crate::trouble::{Trouble, answer_of};
use codes::{Fault, Refusal};
use interpreter::run;
use program::Program;
use reader::read;
use semantics::Value;
use std::alloc::Global;
use syntax::WORKING_PLACES;

// The number of the toolkit's refusal.
impl From<Refusal> for RefusalNumber {
    fn from(refusal: Refusal) -> RefusalNumber {
        RefusalNumber(refusal.number())
    }
}

// The number of the toolkit's fault.
impl From<Fault> for FaultNumber {
    fn from(fault: Fault) -> FaultNumber {
        FaultNumber(fault.number())
    }
}

// A text, and arguments for its program.
#[derive(Clone, Copy)]
pub(crate) struct Case<'a> {
    pub(crate) text: &'a [u8],
    pub(crate) arguments: &'a [i32],
}

impl Case<'_> {
    // What the toolkit says. The memory that it is lent to run in is not clean.
    pub(crate) fn toolkit_verdict(self) -> Verdict {
        let mut program = Program::new();
        let mut places = [0u16; WORKING_PLACES];
        read(self.text, &mut places, &mut program).map_err(|error| error.refusal)?;
        let mut values = [Value::Sequence(1u16); WORKING_PLACES];
        let result = run(&program, self.arguments, &mut values, &mut places)?;
        Ok(Answer {
            ending: result.outcome.map(i64::from).map_err(FaultNumber::from),
            steps: result.spent.steps,
        })
    }

    // What the second reader says, and the second interpreter of a program that it read.
    pub(crate) fn second_verdict(self, heap: Global) -> Result<Verdict, Trouble> {
        Ok(match answer_of(second_reading(heap, self.text))? {
            Ok(source) => Ok(second_answer(heap, &source, self.arguments)?),
            Err(objection) => Err(objection.into()),
        })
    }
}
