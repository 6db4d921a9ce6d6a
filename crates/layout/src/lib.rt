// A table of places in which a program's commands lie, chained by links.
#![tactic(auto)]

use syntax::{MOST_COMMANDS, Name};

// The head, and a place for each command that a program may have.
pub const PLACES: usize = MOST_COMMANDS + 1;

// A command. A sequence holds the first place of its chain, or 0 where it is empty.
#[derive(Clone, Copy)]
pub enum Command {
    Numeral(i32),
    Name(Name),
    Sequence(u16),
}

// A command and the place of the one after it, or 0 at the end of a chain.
#[derive(Clone, Copy)]
pub struct Place {
    pub command: Command,
    pub next: u16,
}

// A place that nothing uses.
pub const VACANT: Place = Place {
    command: Command::Numeral(0),
    next: 0,
};

// Place 0 is the head: it holds no command, and links to the first. A table and links, and no boxes: it is fixed memory, and
// the order of its places is the record's format.
#[derive(Clone, Copy)]
pub struct Table {
    pub places: [Place; PLACES],
    // how many places hold commands, and how many of these are sequences
    pub commands: u16,
    pub sequences: u16,
    pub parameters: u8,
}
