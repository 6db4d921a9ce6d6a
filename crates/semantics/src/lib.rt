// What programs mean: values, what each command does to a stack of them, and what a run gives and spends. Definitions, and
// theorems that other crates cite.
#![tactic(auto)]

ghost use Rattle.semantics.specs.Laws.{Compositional, EveryRunEnds, ExecRunsContents, OneValuation, StaysInRange, StepsWithinCommands};

use codes::Fault;

// A value on the stack: a numeral, or a sequence by what stands for it (its commands, or where these are kept).
#[derive(Clone, Copy, PartialEq, Eq, Debug)]
pub enum Value<S> {
    Numeral(i32),
    Sequence(S),
}

// What a run comes to: a number, or the fault at which it stopped.
pub type Outcome = Result<i32, Fault>;

// What a run has spent.
#[derive(Clone, Copy, PartialEq, Eq, Debug)]
pub struct Spent {
    // commands that were run, one that faulted counted too
    pub steps: u32,
}

// What a run gave, and what it spent.
#[derive(Clone, Copy, PartialEq, Eq, Debug)]
pub struct Run {
    pub outcome: Outcome,
    pub spent: Spent,
}

// The meaning of a chain is that of its first command and then that of the rest; and nothing else has these clauses.
pub fn meaning_is_the_one_valuation()
    ensures { OneValuation }
{}

// Wherever a chain is cut, its meaning is that of the first part and then that of the second.
pub fn meaning_is_compositional()
    ensures { Compositional }
{}

// A sequence that is pushed and executed at once is its contents.
pub fn exec_of_a_sequence_is_its_contents()
    ensures { ExecRunsContents }
{}

// Every run ends, command by command, as the meaning says and in no other way.
pub fn every_run_ends()
    ensures { EveryRunEnds }
{}

// No run takes more steps than there are commands.
pub fn no_run_takes_more_steps_than_commands()
    ensures { StepsWithinCommands }
{}

// Numbers stay within the range, on every stack and in what a program gives.
pub fn numbers_stay_in_range()
    ensures { StaysInRange }
{}
