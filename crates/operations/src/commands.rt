// What each name does: it looks first, so that a fault leaves the values as they were, and then takes and puts.
ghost use Rattle.operations.specs.Acting.{Applied, depth_of_lem, number_in};
ghost use Rattle.semantics.specs.Commands.{counted};
ghost use Rattle.stack.specs.Held.{held};
ghost use Rattle.stack.specs.Items.{tail_of};
ghost use Rattle.std.specs.Prelude.{◌≡◌};

use super::operators::compute;
use codes::Fault;
use semantics::Value;
use stack::Stack;
use syntax::{Name, Operator};

// An operator takes two numerals and puts one; the one on top is its right side.
pub(crate) fn operate(
    operator: Operator,
    values: &mut Stack<Value<u16>>,
) -> Result<Option<u16>, Fault>
    ensures { Applied (Name.Operator operator) values.old values.new result }
{
    let first = values.get(0).ok_or(Fault::Underflow)?;
    let second = values.get(1).ok_or(Fault::Underflow)?;
    let right = number(first)?;
    let left = number(second)?;
    let result = compute(operator, left, right)?;
    values.pop();
    values.pop();
    values.push(Value::Numeral(result));
    Ok(None)
}

// The top value is taken away.
pub(crate) fn pop(values: &mut Stack<Value<u16>>) -> Result<Option<u16>, Fault>
    ensures { Applied Name.Pop values.old values.new result }
{
    values.pop().ok_or(Fault::Underflow)?;
    Ok(None)
}

// The two values on top change places.
pub(crate) fn swap(values: &mut Stack<Value<u16>>) -> Result<Option<u16>, Fault>
    ensures { Applied Name.Swap values.old values.new result }
{
    let first = values.get(0).ok_or(Fault::Underflow)?;
    let second = values.get(1).ok_or(Fault::Underflow)?;
    values.pop();
    values.pop();
    values.push(first);
    values.push(second);
    Ok(None)
}

// Of three values the first is kept where the third is 0, else the second.
pub(crate) fn sel(values: &mut Stack<Value<u16>>) -> Result<Option<u16>, Fault>
    ensures { Applied Name.Sel values.old values.new result }
{
    let first = values.get(0).ok_or(Fault::Underflow)?;
    let second = values.get(1).ok_or(Fault::Underflow)?;
    let third = values.get(2).ok_or(Fault::Underflow)?;
    let condition = number(third)?;
    let chosen = if condition == 0 { first } else { second };
    values.pop();
    values.pop();
    values.pop();
    values.push(chosen);
    Ok(None)
}

// An index is taken, and the numeral that it counts to is copied to the top.
pub(crate) fn nget(values: &mut Stack<Value<u16>>) -> Result<Option<u16>, Fault>
    ensures { Applied Name.Nget values.old values.new result }
{
    let first = values.get(0).ok_or(Fault::Underflow)?;
    let index = number(first)?;
    let found = indexed(values, index).ok_or(Fault::Index)?;
    let copy = number(found)?;
    values.pop();
    values.push(Value::Numeral(copy));
    Ok(None)
}

// A sequence is taken and entered.
pub(crate) fn exec(values: &mut Stack<Value<u16>>) -> Result<Option<u16>, Fault>
    ensures { Applied Name.Exec values.old values.new result }
{
    match values.get(0).ok_or(Fault::Underflow)? {
        Value::Sequence(sequence) => {
            values.pop();
            Ok(Some(sequence))
        }
        Value::Numeral(_) => Err(Fault::NoSequence),
    }
}

// The number that a value is.
fn number(value: Value<u16>) -> Result<i32, Fault>
    ensures { result ≡ number_in value }
{
    match value {
        Value::Numeral(number) => Ok(number),
        Value::Sequence(_) => Err(Fault::NoNumeral),
    }
}

// The value that an index on top counts to, among those below it.
fn indexed(values: &Stack<Value<u16>>, index: i32) -> Option<Value<u16>>
    ensures { result ≡ counted (tail_of (held values.now)) index }
{
    let depth = depth_of(index)?;
    values.get(depth + 1)
}

// How far below the top an index counts, from 1 at the top.
fn depth_of(index: i32) -> Option<usize>
    ensures { result ≡ depth_of_lem index }
{
    usize::try_from(i64::from(index) - 1).ok()
}
