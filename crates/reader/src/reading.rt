// Reads a text: each token becomes an event for the builder, up to the last bracket or the first wrong token.
ghost use Rattle.std.specs.Prelude.{◌≡◌, ◌≤◌, [], length, Some};
ghost use Rattle.grammar.specs.Reading.{after, body, program as program_verdict, step};
ghost use Rattle.lexer.specs.Lexing.{lexeme, rest, text_of};
ghost use Rattle.program.specs.Building.{working};
ghost use Rattle.stack.specs.Held.{room};
ghost use Rattle.syntax.specs.Bounds.{most_commands};
ghost use Rattle.syntax.specs.Code.{Code};
ghost use Rattle.syntax.specs.Events.{blank, draft};
ghost use Rattle.reader.specs.Reads.{Exactly, Expected, Headed, ReadAs, Says, Turned, Unplaced};

use codes::Refusal;
use lexer::{Lexer, Token, command, digits};
use program::{Arity, Builder, Program};
use stack::Stack;
use std::ops::ControlFlow;
use syntax::{Event, MOST_BYTES, WORKING_PLACES};

// Why a text was not read, and the place where the token to blame begins, if a token is to blame.
#[derive(Clone, Copy)]
pub struct ReadError {
    pub refusal: Refusal,
    pub at: Option<usize>,
}

impl ReadError {
    // A refusal of the token that begins at this place.
    fn placed(refusal: Refusal, place: usize) -> ReadError
        ensures refusal { result.refusal ≡ refusal }
        ensures at { result.at ≡ Some place }
    {
        ReadError {
            refusal,
            at: Some(place),
        }
    }
}

impl From<Refusal> for ReadError {
    ghost from_gives = { Unplaced };

    // A refusal for which no token is to blame.
    fn from(refusal: Refusal) -> ReadError {
        ReadError { refusal, at: None }
    }
}

// Reads the text into the record. Refused are, in this order: lent memory of too few places, a text of too many bytes, and
// then the first wrong token from the left. A refusal leaves the record as it was.
pub fn read(text: &[u8], brackets: &mut [u16], into: &mut Program) -> Result<(), ReadError>
    ensures reads { ReadAs (length brackets.old) text.now into.old into.new result }
    ensures exactly { Exactly (length brackets.old) text.now into.new result }
{
    if brackets.len() < WORKING_PLACES {
        return Err(Refusal::Space.into());
    }
    if text.len() > MOST_BYTES {
        return Err(Refusal::Long.into());
    }
    let mut lexer = Lexer::new(text);
    let arity = header(&mut lexer)?;
    let mut opens = Stack::new(brackets);
    let program = commands(&mut lexer, arity, &mut opens)?;
    *into = program;
    Ok(())
}

// The first three tokens: an opening bracket, the word postfix, and the number of parameters.
fn header(lexer: &mut Lexer) -> Result<Arity, ReadError>
    ensures text { text_of lexer.new ≡ text_of lexer.old }
    ensures head { Headed (text_of lexer.old) (program_verdict (rest lexer.old)) (rest lexer.new) result }
{
    expect(lexer, |token| (token == Token::Open).then_some(()))?;
    expect(
        lexer,
        |token| (token == Token::Word(b"postfix")).then_some(()),
    )?;
    expect(lexer, |token| match token {
        Token::Word(word) => digits(word).and_then(|count| Arity::try_from(count).ok()),
        _ => None,
    })
}

// Takes the next token and answers what is wanted of it. Without a token, or where it does not give that, the head is refused.
fn expect<'a, T, F: FnOnce(Token<'a>) -> Option<T>>(
    lexer: &mut Lexer<'a>,
    want: F,
) -> Result<T, ReadError>
    requires { F.IsAlwaysCallable want }
    ensures text { text_of lexer.new ≡ text_of lexer.old }
    ensures next { Expected (F.post want) (text_of lexer.old) (rest lexer.old) (rest lexer.new) result }
{
    let token = lexer.next().ok_or(Refusal::Head)?;
    want(token).ok_or(ReadError::placed(Refusal::Head, lexer.start()))
}

// The commands up to the program's last bracket, which nothing may follow.
fn commands(lexer: &mut Lexer, arity: Arity, opens: &mut Stack<u16>) -> Result<Program, ReadError>
    requires { most_commands ≤ room opens.old }
    ensures { Says (text_of lexer.old) (body arity.count (rest lexer.old) blank) result }
{
    let mut builder = Builder::new(arity, opens);
    while let Some(token) = lexer.next() {
        match take(&mut builder, token) {
            Ok(ControlFlow::Continue(())) => {}
            Ok(ControlFlow::Break(())) => return ended(lexer, &builder),
            Err(refusal) => return Err(ReadError::placed(refusal, lexer.start())),
        }
    }
    Err(Refusal::Bracket.into())
}

// Hands one token to the builder, which may refuse it. A closing bracket where no bracket is open is the program's last, and
// reading breaks off there.
fn take(builder: &mut Builder, token: Token) -> Result<ControlFlow<()>, Refusal>
    requires { most_commands ≤ room builder.old.opens.now }
    ensures turned { Turned (step (working builder.old) (lexeme token.entry)) (working builder.old) (working builder.new) result }
    ensures room { room builder.new.opens.now ≡ room builder.old.opens.now }
    ensures arity { builder.new.arity ≡ builder.old.arity }
    ensures same { builder.new.opens.ghost_name ≡ builder.old.opens.ghost_name }
{
    match token {
        Token::Open => builder.accept(Event::Open)?,
        Token::Close => {
            if builder.accept(Event::Close).is_err() {
                return Ok(ControlFlow::Break(()));
            }
        }
        Token::Word(word) => builder.accept(command(word)?)?,
    }
    Ok(ControlFlow::Continue(()))
}

// The program, unless a token follows its last bracket.
fn ended(lexer: &mut Lexer, builder: &Builder) -> Result<Program, ReadError>
    ensures { (c : Code) → working builder.now ≡ draft c [] → Says (text_of lexer.old) (after builder.now.arity.count c (rest lexer.old)) result }
{
    if lexer.next().is_some() {
        return Err(ReadError::placed(Refusal::Bracket, lexer.start()));
    }
    builder.finish().ok_or(Refusal::Bracket.into())
}
