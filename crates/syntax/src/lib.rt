// What a program is made of: thirteen names, and what stands in its text one after the other.
#![tactic(auto)]

ghost use Rattle.syntax.specs.Laws.{EventsMakeTheProgram, EventsTellProgramsApart};

// How many commands a program may have, inner ones counted.
pub const MOST_COMMANDS: usize = 255;

// How many parameters a program may have.
pub const MOST_PARAMETERS: u8 = 8;

// How many bytes a text may have.
pub const MOST_BYTES: usize = 4096;

// How many places each lent stack needs.
pub const WORKING_PLACES: usize = 264;

// A name that takes two numerals and gives one.
#[derive(Clone, Copy, PartialEq, Eq, Debug)]
pub enum Operator {
    Add,
    Div,
    Eq,
    Gt,
    Lt,
    Mul,
    Rem,
    Sub,
}

// A command that is a name.
#[derive(Clone, Copy, PartialEq, Eq, Debug)]
pub enum Name {
    Operator(Operator),
    Exec,
    Nget,
    Pop,
    Sel,
    Swap,
}

// What stands next in a program's text.
#[derive(Clone, Copy, PartialEq, Eq, Debug)]
pub enum Event {
    Numeral(i32),
    Name(Name),
    Open,
    Close,
}

// A program's events, taken one after the other, make the program.
pub fn events_make_the_program()
    ensures { EventsMakeTheProgram }
{}

// Two programs with the same events are one.
pub fn events_tell_programs_apart()
    ensures { EventsTellProgramsApart }
{}
