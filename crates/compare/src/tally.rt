// How many of each outcome there were.
use crate::answer::{FaultNumber, RefusalNumber, Verdict};
use std::fmt;

// The first fault.
const FIRST_FAULT: u8 = 11;

// The first refusal.
const FIRST_REFUSAL: u8 = 1;

// How often each of N numbers came, which follow one another from FIRST on.
#[derive(Default, Drop)]
struct Counts<const FIRST: u8, const N: usize> {
    counts: [u64; N],
}

impl<const FIRST: u8, const N: usize> Counts<FIRST, N> {
    // One more of this number, if it is one of them.
    fn add(&mut self, number: u8) {
        if let Some(place) = number.checked_sub(FIRST)
            && let Some(count) = self.counts.get_mut(usize::from(place))
        {
            add_one(count);
        }
    }

    // Whether each of them came.
    fn is_full(&self) -> bool {
        !self.counts.contains(&0)
    }
}

// Counts.
#[derive(Default, Drop)]
pub(crate) struct Tally {
    examples: u64,
    programs: u64,
    commands: u64,
    numbers: u64,
    faults: Counts<FIRST_FAULT, 8>,
    texts: u64,
    accepted: u64,
    refusals: Counts<FIRST_REFUSAL, 6>,
}

impl Tally {
    // A program of the table.
    pub(crate) fn count_example(&mut self) {
        add_one(&mut self.examples);
    }

    // A program of so many commands, and what came of it.
    pub(crate) fn count_program(&mut self, commands: usize, verdict: Verdict) {
        add_one(&mut self.programs);
        self.commands = self.commands.saturating_add(commands as u64);
        match verdict.map(|answer| answer.ending) {
            Ok(Ok(_)) => add_one(&mut self.numbers),
            Ok(Err(FaultNumber(number))) => self.faults.add(number),
            Err(_) => {}
        }
    }

    // A damaged text, and what came of it.
    pub(crate) fn count_text(&mut self, verdict: Verdict) {
        add_one(&mut self.texts);
        match verdict {
            Ok(_) => add_one(&mut self.accepted),
            Err(RefusalNumber(number)) => self.refusals.add(number),
        }
    }

    // Whether each fault and each refusal came.
    pub(crate) fn is_full(&self) -> bool {
        self.faults.is_full() && self.refusals.is_full()
    }
}

// One more.
fn add_one(count: &mut u64) {
    *count = count.saturating_add(1);
}

// A table for people.
impl fmt::Display for Tally {
    fn fmt<W: fmt::Write>(&self, f: &mut fmt::Formatter<W>) -> fmt::Result {
        writeln!(f, "small programs with known values {}", self.examples)?;
        writeln!(f, "programs {}, commands {}", self.programs, self.commands)?;
        writeln!(f, "  number     {:>6}", self.numbers)?;
        for (number, n) in (FIRST_FAULT..).zip(self.faults.counts.iter()) {
            writeln!(f, "  {}   {n:>6}", FaultNumber(number))?;
        }
        writeln!(f, "damaged texts {}", self.texts)?;
        writeln!(f, "  accepted   {:>6}", self.accepted)?;
        for (number, n) in (FIRST_REFUSAL..).zip(self.refusals.counts.iter()) {
            writeln!(f, "  {}  {n:>6}", RefusalNumber(number))?;
        }
        Ok(())
    }
}
