// The second interpreter. It takes an owned tree apart as it goes, and calls itself for the rest of a chain and for the chain
// of a group.
use crate::answer::{Answer, FaultNumber};
use crate::pair::Pair;
use crate::tree::{Code, Source, Word, grow};
use crate::trouble::{Stop, Trouble, answer_of};
use std::alloc::Global;

// One more than the commands of a program: no call is nested deeper.
const DEPTH: u16 = 256;

// What a run stops at, and the number of the fault.
#[derive(Clone, Copy)]
enum Trap {
    WrongCount = 11,
    TooFew = 12,
    NotNumber = 13,
    NotGroup = 14,
    ZeroDivisor = 15,
    NoSuchPlace = 16,
    NothingLeft = 17,
    GroupLeft = 18,
}

// The number that stands beside the fault.
impl From<Trap> for FaultNumber {
    fn from(trap: Trap) -> FaultNumber {
        FaultNumber(trap as u8)
    }
}

// A fault stops the run.
impl From<Trap> for Stop<Trap> {
    fn from(trap: Trap) -> Stop<Trap> {
        Stop::Said(trap)
    }
}

// A value: a number, or a group with all that it owns.
#[derive(Drop)]
enum Held {
    Number(i64),
    Group(Code),
}

impl Held {
    // The number that the value is.
    fn number(&self) -> Result<i64, Trap> {
        match self {
            Held::Number(n) => Ok(*n),
            Held::Group(_) => Err(Trap::NotNumber),
        }
    }
}

// A run: its values, the top last, and the commands begun so far.
#[derive(Drop)]
struct Execution {
    values: Vec<Held>,
    steps: u32,
}

// Runs a program on some arguments.
pub(crate) fn second_answer(
    heap: Global,
    source: &Source,
    arguments: &[i32],
) -> Result<Answer, Trouble> {
    let code = grow(heap, source.pieces.as_slice())?;
    let mut execution = Execution {
        values: Vec::new(heap),
        steps: 0,
    };
    let end = execution.whole(source.parameters, code, arguments);
    Ok(Answer {
        ending: answer_of(end)?.map_err(FaultNumber::from),
        steps: execution.steps,
    })
}

impl Execution {
    // The arguments, the commands, and the number that is left on top.
    fn whole(&mut self, parameters: u8, code: Code, arguments: &[i32]) -> Result<i64, Stop<Trap>> {
        if usize::from(parameters) != arguments.len() {
            return Err(Trap::WrongCount.into());
        }
        let values = arguments.iter().rev();
        self.values
            .extend(values.map(|n| Held::Number(i64::from(*n))))?;
        self.obey(code, DEPTH)?;
        match self.values.pop() {
            Some(Held::Number(n)) => Ok(n),
            Some(Held::Group(_)) => Err(Trap::GroupLeft.into()),
            None => Err(Trap::NothingLeft.into()),
        }
    }

    // Obeys the commands of a chain, the first here and the others by calling itself.
    fn obey(&mut self, code: Code, depth: u16) -> Result<(), Stop<Trap>> {
        if depth == 0 {
            return Err(Trouble::Depth.into());
        }
        let rest = match code {
            Code::End => return Ok(()),
            Code::Numeral(n, rest) => {
                self.begin();
                self.values.push(Held::Number(n))?;
                rest
            }
            Code::Group(group, rest) => {
                self.begin();
                self.values.push(Held::Group(Box::into_inner(group)))?;
                rest
            }
            Code::Word(word, rest) => {
                self.begin();
                if let Some(group) = self.perform(word)? {
                    self.obey(group, depth - 1)?;
                }
                rest
            }
        };
        self.obey(Box::into_inner(rest), depth - 1)
    }

    // Counts a command.
    fn begin(&mut self) {
        self.steps = self.steps.saturating_add(1);
    }

    // Does what a name says, and gives the group that has to be obeyed next, if there is one.
    fn perform(&mut self, word: Word) -> Result<Option<Code>, Stop<Trap>> {
        let value = match word {
            Word::Exec => return Ok(Some(self.take_group()?)),
            Word::Pop => {
                let _ = self.take()?;
                return Ok(None);
            }
            Word::Swap => {
                let top = self.take()?;
                let under = self.take()?;
                self.values.push(top)?;
                under
            }
            Word::Sel => self.choose()?,
            Word::Nget => Held::Number(self.look_up()?),
            Word::Add => Held::Number(self.take_pair()?.sum()),
            Word::Sub => Held::Number(self.take_pair()?.difference()),
            Word::Mul => Held::Number(self.take_pair()?.product()),
            Word::Div => Held::Number(self.take_pair()?.quotient().ok_or(Trap::ZeroDivisor)?),
            Word::Rem => Held::Number(self.take_pair()?.remainder().ok_or(Trap::ZeroDivisor)?),
            Word::Lt => Held::Number(self.take_pair()?.less()),
            Word::Eq => Held::Number(self.take_pair()?.equal()),
            Word::Gt => Held::Number(self.take_pair()?.greater()),
        };
        self.values.push(value)?;
        Ok(None)
    }

    // The top value, which goes.
    fn take(&mut self) -> Result<Held, Trap> {
        self.values.pop().ok_or(Trap::TooFew)
    }

    // The group on top, which goes.
    fn take_group(&mut self) -> Result<Code, Trap> {
        match self.take()? {
            Held::Group(code) => Ok(code),
            Held::Number(_) => Err(Trap::NotGroup),
        }
    }

    // Of two values the upper if a number below them is zero, else the lower.
    fn choose(&mut self) -> Result<Held, Trap> {
        let upper = self.take()?;
        let lower = self.take()?;
        let test = self.take()?.number()?;
        Ok(if test == 0 { upper } else { lower })
    }

    // The number that stands so far below the top as the number on top says.
    fn look_up(&mut self) -> Result<i64, Trap> {
        let index = self.take()?.number()?;
        let below = usize::try_from(index.saturating_sub(1)).map_err(|_| Trap::NoSuchPlace)?;
        let value = self.values.iter().rev().nth(below);
        value.ok_or(Trap::NoSuchPlace)?.number()
    }

    // The two numbers on top, which go; the upper is the right side.
    fn take_pair(&mut self) -> Result<Pair, Trap> {
        let top = self.take()?;
        let under = self.take()?;
        Ok(Pair {
            right: top.number()?,
            left: under.number()?,
        })
    }
}
