// How a builder takes events.
ghost use Rattle.std.specs.Prelude.{◌≡◌, ◌+◌, ◌<◌, true};
ghost use Rattle.layout.specs.Drafts.{placed};
ghost use Rattle.layout.specs.Tables.{table_places};
ghost use Rattle.program.specs.Building.{Took, completed, event_of, plain, program_if, working};
ghost use Rattle.stack.specs.Held.{room};
ghost use Rattle.syntax.specs.Events.{blank, finished};

use super::arity::Arity;
use super::builder::Builder;
use super::record::Program;
use codes::Refusal;
use layout::{Command, PLACES, Place, Table, VACANT};
use stack::Stack;
use syntax::Event;

impl<'a, 'b> Builder<'a, 'b> {
    // A builder of a program with so many parameters, which keeps its open brackets on the lent stack.
    pub fn new(arity: Arity, opens: &'a mut Stack<'b, u16>) -> Builder<'a, 'b>
        ensures start { working result ≡ blank }
        ensures arity { result.arity ≡ arity }
        ensures room { room result.opens.now ≡ room opens.old }
        ensures same { result.opens.ghost_name ≡ opens.entry.ghost_name }
        ensures places { result.opens.now.places.ghost_name ≡ opens.old.places.ghost_name }
    {
        opens.clear();
        Builder {
            places: [VACANT; PLACES],
            used: 1,
            last: 0,
            sequences: 0,
            arity,
            opens,
        }
    }

    // What comes next in the text.
    pub fn accept(&mut self, event: Event) -> Result<(), Refusal>
        ensures { Took event self.old self.new result }
    {
        match event {
            Event::Numeral(k) => self.append(Command::Numeral(k)),
            Event::Name(o) => self.append(Command::Name(o)),
            Event::Open => self.open(),
            Event::Close => self.close(),
        }
    }

    // One more command at the end of the innermost chain, a numeral or a name.
    fn append(&mut self, command: Command) -> Result<(), Refusal>
        requires { plain command ≡ true }
        ensures { Took (event_of command) self.old self.new result }
    {
        let at = self.used;
        if at as usize >= PLACES {
            return Err(Refusal::Crowd);
        }
        put(&mut self.places, self.last, at, command);
        self.last = at;
        self.used = at + 1;
        Ok(())
    }

    // A sequence at the end of the innermost chain, whose own chain is the innermost now.
    fn open(&mut self) -> Result<(), Refusal>
        ensures { Took Event.Open self.old self.new result }
    {
        let at = self.used;
        if at as usize >= PLACES {
            return Err(Refusal::Crowd);
        }
        if !self.opens.push(at) {
            return Err(Refusal::Space);
        }
        put(&mut self.places, self.last, at, Command::Sequence(0));
        self.last = 0;
        self.used = at + 1;
        self.sequences += 1;
        Ok(())
    }

    // The innermost chain is a sequence's contents, and the chain around it goes on.
    fn close(&mut self) -> Result<(), Refusal>
        ensures { Took Event.Close self.old self.new result }
    {
        let Some(at) = self.opens.pop() else {
            return Err(Refusal::Bracket);
        };
        let first = if self.used == at + 1 { 0 } else { at + 1 };
        self.places[at as usize] = Place {
            command: Command::Sequence(first),
            next: 0,
        };
        self.last = at;
        Ok(())
    }

    // The program, unless a bracket is open.
    pub fn finish(&self) -> Option<Program>
        ensures { program_if result ≡ completed self.now.arity.count (finished (working self.now)) }
    {
        if self.opens.len() > 0 {
            return None;
        }
        let first = if self.used == 1 { 0 } else { 1 };
        let mut places = self.places;
        places[0] = Place {
            next: first,
            ..VACANT
        };
        let table = Table {
            places,
            commands: self.used - 1,
            sequences: self.sequences,
            parameters: self.arity.count(),
        };
        Some(Program { table })
    }
}

// Puts a command at the next unused place, and links it from the last.
fn put(places: &mut [Place; PLACES], last: u16, at: u16, command: Command)
    requires { (last < table_places) × (at < table_places) }
    ensures { places.new ≡ placed places.old last at command }
{
    places[last as usize].next = at;
    places[at as usize] = Place { command, next: 0 };
}
