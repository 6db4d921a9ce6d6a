// What operators give for two numbers.
ghost use Rattle.semantics.specs.Commands.{compute as computed};
ghost use Rattle.std.specs.Prelude.{◌≡◌};

use arithmetic::{add, div_rem, mul, sub};
use codes::Fault;
use syntax::Operator;

// What an operator gives, or its fault. A comparison gives 1 where it holds, else 0.
pub fn compute(operator: Operator, left: i32, right: i32) -> Result<i32, Fault>
    ensures { result ≡ computed operator left right }
{
    match operator {
        Operator::Add => Ok(add(left, right)),
        Operator::Sub => Ok(sub(left, right)),
        Operator::Mul => Ok(mul(left, right)),
        Operator::Div => Ok(div_rem(left, right)?.0),
        Operator::Rem => Ok(div_rem(left, right)?.1),
        Operator::Lt => Ok(i32::from(left < right)),
        Operator::Eq => Ok(i32::from(left == right)),
        Operator::Gt => Ok(i32::from(left > right)),
    }
}
