// A program's text, written into lent bytes.
ghost use Rattle.std.specs.Prelude.{◌≡◌, ◌≤◌, false, [], ◌∷◌, length, take, IfOk, Ok};
ghost use Rattle.grammar.specs.Printing.{event_token, lay, print as printed};
ghost use Rattle.grammar.specs.Reading.{parse, taken};
ghost use Rattle.grammar.specs.Words.{name_word};
ghost use Rattle.program.specs.Programs.{program_of};
ghost use Rattle.program.specs.Walking.{Ample, left};
ghost use Rattle.syntax.specs.Bounds.{most_commands};
ghost use Rattle.printer.specs.Printed.{bytes_after, print_answer};
ghost use Rattle.printer.specs.Records.{EveryRecordReadsBack};
ghost use Rattle.printer.specs.Writing.{Adds, close_behind, ending, heading, written};

use super::text::Text;
use codes::Refusal;
use program::{Program, Walker};
use stack::Stack;
use syntax::{Event, Name, Operator, WORKING_PLACES};

// Writes the program's text to the front of `out`, and says how long it is.
pub fn print(program: &Program, chains: &mut [u16], out: &mut [u8]) -> Result<usize, Refusal>
    ensures answer { result ≡ print_answer (length chains.old) (printed (program_of program.now)) (length out.old) }
    ensures bytes { out.new ≡ bytes_after result (printed (program_of program.now)) out.old }
    ensures reads_back { IfOk result (λ n. parse (take n out.new) ≡ taken (program_of program.now)) }
{
    if chains.len() < WORKING_PLACES {
        return Err(Refusal::Space);
    }
    let len = spell(program, chains, &mut [])?;
    if out.len() < len {
        return Err(Refusal::Space);
    }
    spell(program, chains, out)
}

// The print of every program record is short enough to be read, and reads back as that program.
pub fn every_record_reads_back()
    ensures { EveryRecordReadsBack }
{}

// Writes the program's text from the front of `out` on, as far as there is room, and says how long it is.
fn spell(program: &Program, chains: &mut [u16], out: &mut [u8]) -> Result<usize, Refusal>
    requires { most_commands ≤ length chains.old }
    ensures answer { result ≡ Ok (length (printed (program_of program.now))) }
    ensures bytes { out.new ≡ written out.old (printed (program_of program.now)) }
{
    let mut stack = Stack::new(chains);
    let mut walker = Walker::new(program, &mut stack);
    let mut text = Text::new(out);
    text.put_heading(program.parameters());
    text.put_events(&mut walker)?;
    Ok(text.len())
}

impl Text<'_> {
    // Adds what a text begins with.
    fn put_heading(&mut self, parameters: u8)
        ensures { Adds self.old (heading parameters) self.new }
    {
        self.put_all(b"(postfix ");
        self.put_decimal(u32::from(parameters));
    }

    // Adds the events that a walk has yet to pass, and the last bracket.
    fn put_events(&mut self, walker: &mut Walker) -> Result<(), Refusal>
        requires { Ample walker.old }
        ensures answer { result ≡ Ok tt }
        ensures text { Adds self.old (ending false (left walker.old)) self.new }
    {
        let mut tight = false;
        while let Some(event) = walker.next()? {
            self.put_event(tight, event);
            tight = is_opening(event);
        }
        self.put(b')');
        Ok(())
    }

    // Adds an event's token, behind a blank where one belongs.
    fn put_event(&mut self, tight: bool, event: Event)
        ensures { Adds self.old (lay tight (event_token event ∷ [])) self.new }
    {
        if !tight && !matches!(event, Event::Close) {
            self.put(b' ');
        }
        match event {
            Event::Numeral(k) => self.put_numeral(k),
            Event::Name(o) => self.put_all(name_text(o)),
            Event::Open => self.put(b'('),
            Event::Close => self.put(b')'),
        }
    }
}

// Whether what follows the event stands close behind it.
fn is_opening(event: Event) -> bool
    ensures { result ≡ close_behind event }
{
    matches!(event, Event::Open)
}

// The word of a name.
fn name_text(o: Name) -> &'static [u8]
    ensures { result.now ≡ name_word o }
{
    match o {
        Name::Operator(Operator::Add) => b"add",
        Name::Operator(Operator::Div) => b"div",
        Name::Operator(Operator::Eq) => b"eq",
        Name::Operator(Operator::Gt) => b"gt",
        Name::Operator(Operator::Lt) => b"lt",
        Name::Operator(Operator::Mul) => b"mul",
        Name::Operator(Operator::Rem) => b"rem",
        Name::Operator(Operator::Sub) => b"sub",
        Name::Exec => b"exec",
        Name::Nget => b"nget",
        Name::Pop => b"pop",
        Name::Sel => b"sel",
        Name::Swap => b"swap",
    }
}
