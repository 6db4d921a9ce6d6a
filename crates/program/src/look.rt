// How a count becomes an arity, and what an arity and a program show of themselves.
ghost use Rattle.program.specs.Programs.{Counts, OneProgramOneRecord, ReachesEachPlaceOnce, from, program_of, tree_of};
ghost use Rattle.layout.specs.Walking.{opened, place_at};
ghost use Rattle.syntax.specs.Code.{commands, end, parameters_of, sequences, source};
ghost use Rattle.std.specs.Prelude.{◌≡◌};

use super::arity::{Arity, TooManyParameters};
use super::record::Program;
use layout::{PLACES, Place, Table, VACANT};
use syntax::MOST_PARAMETERS;

// A count as an arity, unless it is above what a program may have.
impl TryFrom<u64> for Arity {
    type Error = TooManyParameters;

    ghost try_from_gives = { Counts };

    fn try_from(count: u64) -> Result<Arity, TooManyParameters> {
        match u8::try_from(count) {
            Ok(count) if count <= MOST_PARAMETERS => Ok(Arity { count }),
            _ => Err(TooManyParameters),
        }
    }
}

impl Arity {
    // The number of parameters.
    pub fn count(&self) -> u8
        ensures { result ≡ self.now.count }
    {
        self.count
    }
}

impl Program {
    // The program with no parameters and no commands.
    pub fn new() -> Program
        ensures { program_of result ≡ source 0 end }
    {
        Program {
            table: Table {
                places: [VACANT; PLACES],
                commands: 0,
                sequences: 0,
                parameters: 0,
            },
        }
    }

    // How many parameters it has.
    pub fn parameters(&self) -> u8
        ensures { result ≡ parameters_of (program_of self.now) }
    {
        self.table.parameters
    }

    // How many commands it has, inner ones counted.
    pub fn commands(&self) -> u16
        ensures { result ≡ commands (tree_of self.now) }
    {
        self.table.commands
    }

    // How many of them are sequences.
    pub fn sequences(&self) -> u16
        ensures { result ≡ sequences (tree_of self.now) }
    {
        self.table.sequences
    }

    // The link to its first command.
    pub fn first(&self) -> u16
        ensures { from self.now result ≡ tree_of self.now }
    {
        self.table.places[0].next
    }

    // The place that a link leads to; none at the end of a chain.
    pub fn place(&self, link: u16) -> Option<Place>
        ensures place { result ≡ place_at self.now.table.places link }
        ensures chain { from self.now link ≡ opened self.now.table.places result }
    {
        if link == 0 || link as usize >= PLACES {
            return None;
        }
        Some(self.table.places[link as usize])
    }
}

// In every record a walk from the head passes each used place just once.
pub fn each_place_is_reached_once()
    ensures { ReachesEachPlaceOnce }
{}

// Two records of one program are alike in all that they use.
pub fn one_program_has_one_record()
    ensures { OneProgramOneRecord }
{}
