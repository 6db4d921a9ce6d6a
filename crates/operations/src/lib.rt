// What names do to a stack of values: the step that every machine shares.
#![tactic(auto)]

ghost use Rattle.operations.specs.Acting.{answer_of, left_by};
ghost use Rattle.semantics.specs.Commands.{act};
ghost use Rattle.semantics.specs.Meaning.{result as outcome_of};
ghost use Rattle.stack.specs.Held.{held, room};
ghost use Rattle.std.specs.Prelude.{◌≡◌};

use codes::Fault;
pub use operators::compute;
use semantics::{Outcome, Value};
use stack::Stack;
use syntax::Name;

mod commands;
mod operators;
#[cfg(test)]
mod tests;

// Applies a name to the values, and gives the sequence that a machine enters then, if it enters one. A fault leaves the
// values as they were. A match, since a table of closures would say no more than its arms.
pub fn apply(command: Name, values: &mut Stack<Value<u16>>) -> Result<Option<u16>, Fault>
    ensures answer { result ≡ answer_of (act command (held values.old)) }
    ensures values { held values.new ≡ left_by (act command (held values.old)) (held values.old) }
    ensures size { room values.new ≡ room values.old }
    ensures same { values.new.places.ghost_name ≡ values.old.places.ghost_name }
{
    match command {
        Name::Operator(operator) => commands::operate(operator, values),
        Name::Exec => commands::exec(values),
        Name::Nget => commands::nget(values),
        Name::Pop => commands::pop(values),
        Name::Sel => commands::sel(values),
        Name::Swap => commands::swap(values),
    }
}

// What a run comes to whose last command leaves these values.
pub fn result(values: &Stack<Value<u16>>) -> Outcome
    ensures { result ≡ outcome_of (held values.now) }
{
    match values.get(0) {
        Some(Value::Numeral(number)) => Ok(number),
        Some(Value::Sequence(_)) => Err(Fault::SequenceOnTop),
        None => Err(Fault::Empty),
    }
}
