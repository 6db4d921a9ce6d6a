// How a walker goes on.
ghost use Rattle.std.specs.Prelude.{◌≡◌, ◌≤◌, Ok};
ghost use Rattle.program.specs.Programs.{tree_of};
ghost use Rattle.program.specs.Walking.{Ample, inside, left, left_after, next_of};
ghost use Rattle.stack.specs.Held.{room};
ghost use Rattle.stack.specs.Items.{head_of};
ghost use Rattle.syntax.specs.Bounds.{most_commands};
ghost use Rattle.syntax.specs.Events.{events};

use super::record::Program;
use super::walker::Walker;
use codes::Refusal;
use layout::Command;
use stack::Stack;
use syntax::Event;

impl<'a, 'b, 'c> Walker<'a, 'b, 'c> {
    // A walk from the program's first command on, which keeps its unfinished chains on the lent stack.
    pub fn new(program: &'a Program, after: &'b mut Stack<'c, u16>) -> Walker<'a, 'b, 'c>
        ensures all { left result ≡ events (tree_of program.now) }
        ensures over { result.program.now ≡ program.now }
        ensures room { room result.after.now ≡ room after.old }
        ensures outside { inside result ≡ 0 }
        ensures ample { most_commands ≤ room after.old → Ample result }
        ensures same { result.after.ghost_name ≡ after.entry.ghost_name }
        ensures places { result.after.now.places.ghost_name ≡ after.old.places.ghost_name }
    {
        after.clear();
        Walker {
            program,
            at: program.table.places[0].next,
            after,
        }
    }

    // What comes next in the text; none at its end.
    pub fn next(&mut self) -> Result<Option<Event>, Refusal>
        ensures event { result ≡ next_of (left self.old) (inside self.old) (room self.old.after.now) }
        ensures rest { left self.new ≡ left_after result (left self.old) }
        ensures room { room self.new.after.now ≡ room self.old.after.now }
        ensures ample { Ample self.old → Ample self.new × (result ≡ Ok (head_of (left self.old))) }
        ensures over { self.new.program.now ≡ self.old.program.now }
        ensures same { self.new.after.ghost_name ≡ self.old.after.ghost_name }
        ensures places { self.new.after.now.places.ghost_name ≡ self.old.after.now.places.ghost_name }
    {
        let Some(place) = self.program.place(self.at) else {
            let Some(at) = self.after.pop() else {
                return Ok(None);
            };
            self.at = at;
            return Ok(Some(Event::Close));
        };
        match place.command {
            Command::Numeral(k) => {
                self.at = place.next;
                Ok(Some(Event::Numeral(k)))
            }
            Command::Name(o) => {
                self.at = place.next;
                Ok(Some(Event::Name(o)))
            }
            Command::Sequence(first) => {
                if !self.after.push(place.next) {
                    return Err(Refusal::Space);
                }
                self.at = first;
                Ok(Some(Event::Open))
            }
        }
    }
}
