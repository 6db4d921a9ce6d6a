// A run that is under way, and one turn of it: a command, or the return to a chain that is not finished.
ghost use Rattle.std.specs.Prelude.{◌≡◌, ◌≤◌, [], length};
ghost use Rattle.interpreter.specs.Turning.{Ample, Turned};
ghost use Rattle.program.specs.Programs.{from, tree_of};
ghost use Rattle.semantics.specs.Meaning.{numbers};
ghost use Rattle.stack.specs.Held.{held, room};

use codes::Fault;
use layout::Command;
use operations::apply;
use program::Program;
use semantics::Value;
use stack::Stack;

// A run under way: its program, the link at which it goes on, its values, and where the chains go on that are not finished.
#[derive(Drop)]
pub struct Execution<'a, 'b, 'c> {
    pub(crate) program: &'a Program,
    pub(crate) at: u16,
    pub(crate) values: Stack<'b, Value<u16>>,
    pub(crate) chains: Stack<'c, u16>,
}

// What a turn did that met no fault.
#[derive(Clone, Copy, PartialEq, Eq, Debug)]
pub enum Turn {
    // it ran a command
    Ran,
    // a chain was at its end, and the one around it goes on
    Returned,
    // the last chain was at its end
    Ended,
}

impl<'a, 'b, 'c> Execution<'a, 'b, 'c> {
    // A run that is about to begin: the arguments are on the stack, the first on top.
    pub(crate) fn new(
        program: &'a Program,
        arguments: &[i32],
        values: &'b mut [Value<u16>],
        chains: &'c mut [u16],
    ) -> Execution<'a, 'b, 'c>
        requires { length arguments.now ≤ length values.old }
        ensures program { result.program.now ≡ program.now }
        ensures at { from program.now result.at ≡ tree_of program.now }
        ensures arguments { held result.values ≡ numbers arguments.now }
        ensures none { held result.chains ≡ [] }
        ensures values { room result.values ≡ length values.old }
        ensures chains { room result.chains ≡ length chains.old }
        ensures same_values { result.values.places.ghost_name ≡ values.entry.ghost_name }
        ensures same_chains { result.chains.places.ghost_name ≡ chains.entry.ghost_name }
    {
        let mut stack = Stack::new(values);
        push_all(&mut stack, arguments);
        Execution {
            program,
            at: program.first(),
            values: stack,
            chains: Stack::new(chains),
        }
    }

    // Runs the command at the link, or goes back to the chain around it.
    pub(crate) fn turn(&mut self) -> Result<Turn, Fault>
        requires { Ample self.old }
        ensures turned { Turned self.old result self.new }
        ensures program { self.new.program.now ≡ self.old.program.now }
        ensures values { room self.new.values ≡ room self.old.values }
        ensures chains { room self.new.chains ≡ room self.old.chains }
        ensures same_values { self.new.values.places.ghost_name ≡ self.old.values.places.ghost_name }
        ensures same_chains { self.new.chains.places.ghost_name ≡ self.old.chains.places.ghost_name }
    {
        let Some(place) = self.program.place(self.at) else {
            let Some(next) = self.chains.pop() else {
                return Ok(Turn::Ended);
            };
            self.at = next;
            return Ok(Turn::Returned);
        };
        match place.command {
            Command::Numeral(k) => {
                self.values.push(Value::Numeral(k));
                self.at = place.next;
            }
            Command::Sequence(first) => {
                self.values.push(Value::Sequence(first));
                self.at = place.next;
            }
            Command::Name(name) => match apply(name, &mut self.values)? {
                None => self.at = place.next,
                Some(first) => {
                    self.chains.push(place.next);
                    self.at = first;
                }
            },
        }
        Ok(Turn::Ran)
    }
}

// Puts the numbers on the stack, the last first.
fn push_all(values: &mut Stack<Value<u16>>, ks: &[i32])
    requires empty { held values.old ≡ [] }
    requires room { length ks.now ≤ room values.old }
    ensures held { held values.new ≡ numbers ks.now }
    ensures room { room values.new ≡ room values.old }
    ensures same { values.new.places.ghost_name ≡ values.old.places.ghost_name }
{
    for k in ks.iter().rev() {
        values.push(Value::Numeral(*k));
    }
}
