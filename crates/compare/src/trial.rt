// One comparison after the other.
use crate::answer::{Shown, Verdict};
use crate::examples::EXAMPLES;
use crate::generate::Generator;
use crate::second::second_answer;
use crate::tally::Tally;
use crate::trouble::Stop;
use crate::verdicts::Case;
use std::alloc::Global;
use std::fmt;

// Where the verdict comes from that the toolkit's is held to.
#[derive(Clone, Copy)]
enum Origin {
    // the table of small programs
    Table,
    // the second reader, and the second interpreter behind it
    Text,
    // the second interpreter, on the tree that was generated
    Tree,
}

// The word for it, as wide as is asked for.
impl fmt::Display for Origin {
    fn fmt<W: fmt::Write>(&self, f: &mut fmt::Formatter<W>) -> fmt::Result {
        f.pad(match self {
            Origin::Table => "table",
            Origin::Text => "second",
            Origin::Tree => "tree",
        })
    }
}

// A text and arguments of which the toolkit says one thing, and another is said elsewhere.
#[derive(Drop)]
pub(crate) struct Difference {
    text: Vec<u8>,
    arguments: Vec<i32>,
    toolkit: Verdict,
    other: Verdict,
    origin: Origin,
}

// Why the comparisons did not come to their end.
pub(crate) type Failure = Stop<Difference>;

// The text, the arguments and both answers. Bytes that do not print are shown by their numbers.
impl fmt::Display for Difference {
    fn fmt<W: fmt::Write>(&self, f: &mut fmt::Formatter<W>) -> fmt::Result {
        write!(f, "a difference\n  text       ")?;
        for byte in self.text.iter() {
            match *byte {
                32..=126 => write!(f, "{}", char::from(*byte))?,
                other => write!(f, "<{other}>")?,
            }
        }
        write!(f, "\n  arguments ")?;
        for argument in self.arguments.iter() {
            write!(f, " {argument}")?;
        }
        write!(f, "\n  toolkit    {}", Shown(self.toolkit))?;
        write!(f, "\n  {:<10} {}", self.origin, Shown(self.other))
    }
}

// A text and arguments that the toolkit had, and what it said.
#[derive(Clone, Copy)]
struct Trial<'a> {
    heap: Global,
    case: Case<'a>,
    toolkit: Verdict,
}

impl<'a> Trial<'a> {
    // Puts a text and arguments to the toolkit.
    fn new(heap: Global, case: Case<'a>) -> Trial<'a> {
        Trial {
            heap,
            case,
            toolkit: case.toolkit_verdict(),
        }
    }

    // Puts a text and arguments to both sides, and sees whether they say the same.
    fn agreed(heap: Global, text: &'a [u8], arguments: &'a [i32]) -> Result<Trial<'a>, Failure> {
        let trial = Trial::new(heap, Case { text, arguments });
        trial.agree_with_second()?;
        Ok(trial)
    }

    // Sees whether what is said elsewhere is what the toolkit says.
    fn agree(&self, origin: Origin, other: Verdict) -> Result<(), Failure> {
        if self.toolkit == other {
            return Ok(());
        }
        Err(Stop::Said(Difference {
            text: Vec::from_slice(self.heap, self.case.text)?,
            arguments: Vec::from_slice(self.heap, self.case.arguments)?,
            toolkit: self.toolkit,
            other,
            origin,
        }))
    }

    // Sees whether the second side says the same.
    fn agree_with_second(&self) -> Result<(), Failure> {
        self.agree(Origin::Text, self.case.second_verdict(self.heap)?)
    }
}

// The small programs with known values.
pub(crate) fn compare_examples(heap: Global, tally: &mut Tally) -> Result<(), Failure> {
    for example in EXAMPLES {
        let trial = Trial::new(heap, example.case());
        trial.agree(Origin::Table, example.verdict())?;
        trial.agree_with_second()?;
        tally.count_example();
    }
    Ok(())
}

// A program, and a damaged text of it. The program is run from its text by both sides, and once more from the tree that it
// was made as.
pub(crate) fn compare_generated(
    generator: &mut Generator,
    tally: &mut Tally,
) -> Result<(), Failure> {
    let heap = generator.heap;
    let source = generator.program()?;
    let arguments = generator.arguments(source.parameters)?;
    let arguments = arguments.as_slice();
    let tokens = generator.tokens(&source)?;
    let text = generator.program_text(tokens.as_slice())?;
    let trial = Trial::agreed(heap, text.as_slice(), arguments)?;
    let answer = second_answer(heap, &source, arguments)?;
    trial.agree(Origin::Tree, Ok(answer))?;
    tally.count_program(source.commands(), trial.toolkit);
    let text = generator.damaged(tokens)?;
    let trial = Trial::agreed(heap, text.as_slice(), arguments)?;
    tally.count_text(trial.toolkit);
    Ok(())
}
