// A run from its arguments to its result.
ghost use Rattle.std.specs.Prelude.{◌≡◌, ◌≤◌, length};
ghost use Rattle.interpreter.specs.Answering.{run_answer};
ghost use Rattle.program.specs.Programs.{program_of, tree_of};
ghost use Rattle.semantics.specs.Meaning.{concluded, meaning, numbers};
ghost use Rattle.syntax.specs.Bounds.{most_parameters, working_places};

use super::turning::{Execution, Turn};
use codes::{Fault, Refusal};
use operations::result;
use program::Program;
use semantics::{Run, Spent, Value};
use syntax::WORKING_PLACES;

// Runs the program on the arguments. Refused where either lent memory has too few places.
pub fn run(
    program: &Program,
    arguments: &[i32],
    values: &mut [Value<u16>],
    chains: &mut [u16],
) -> Result<Run, Refusal>
    ensures { result ≡ run_answer (length values.old) (length chains.old) (program_of program.now) arguments.now }
{
    if values.len() < WORKING_PLACES || chains.len() < WORKING_PLACES {
        return Err(Refusal::Space);
    }
    if arguments.len() != program.parameters() as usize {
        return Ok(Run {
            outcome: Err(Fault::Arguments),
            spent: Spent { steps: 0 },
        });
    }
    Ok(run_commands(program, arguments, values, chains))
}

// Runs the program's commands, its arguments on the stack.
fn run_commands(
    program: &Program,
    arguments: &[i32],
    values: &mut [Value<u16>],
    chains: &mut [u16],
) -> Run
    requires values { working_places ≤ length values.old }
    requires chains { working_places ≤ length chains.old }
    requires few { length arguments.now ≤ most_parameters }
    ensures { result ≡ concluded (meaning (tree_of program.now) (numbers arguments.now)) }
{
    let mut execution = Execution::new(program, arguments, values, chains);
    // counted here, since they are what the run has spent
    let mut steps: u32 = 0;
    loop {
        match execution.turn() {
            Ok(Turn::Ran) => steps += 1,
            Ok(Turn::Returned) => {}
            Ok(Turn::Ended) => return Run {
                outcome: result(&execution.values),
                spent: Spent { steps },
            },
            Err(fault) => return Run {
                outcome: Err(fault),
                spent: Spent { steps: steps + 1 },
            },
        }
    }
}
