// The second reader: a text is cut into tokens, each with a copy of its letters, and then the tokens are gone through.
use crate::answer::RefusalNumber;
use crate::tree::{MOST_BYTES, MOST_COMMANDS, MOST_PARAMETERS, Piece, Source, Word};
use crate::trouble::Stop;
use std::alloc::{AllocError, Global};
use std::mem;

// The largest number.
const LARGEST: u64 = i32::MAX as u64;

// A token.
#[derive(Clone, PartialEq, Drop)]
pub(crate) enum Token {
    Open,
    Close,
    Word(Vec<u8>),
}

impl Token {
    // A word of these letters.
    pub(crate) fn word(heap: Global, letters: &[u8]) -> Result<Token, AllocError> {
        Ok(Token::Word(Vec::from_slice(heap, letters)?))
    }
}

// What is wrong with a text, and the number of the refusal.
#[derive(Clone, Copy)]
pub(crate) enum Objection {
    TooLong = 1,
    NoSuchWord = 2,
    OutOfRange = 3,
    Unbalanced = 4,
    WrongHead = 5,
    TooMany = 6,
}

// The number that stands beside the objection.
impl From<Objection> for RefusalNumber {
    fn from(objection: Objection) -> RefusalNumber {
        RefusalNumber(objection as u8)
    }
}

// What is wrong with a text stops the reading.
impl From<Objection> for Stop<Objection> {
    fn from(objection: Objection) -> Stop<Objection> {
        Stop::Said(objection)
    }
}

// Reads a text.
pub(crate) fn second_reading(heap: Global, text: &[u8]) -> Result<Source, Stop<Objection>> {
    if text.len() > MOST_BYTES {
        return Err(Objection::TooLong.into());
    }
    let tokens = Splitter::new(heap).split(text)?;
    let parameters = head(tokens.as_slice()).ok_or(Objection::WrongHead)?;
    let pieces = body(heap, tokens.as_slice())?;
    Ok(Source { parameters, pieces })
}

// A text on its way to tokens: those so far, and the letters of a word that has not ended.
#[derive(Drop)]
struct Splitter {
    heap: Global,
    tokens: Vec<Token>,
    letters: Vec<u8>,
}

impl Splitter {
    // Nothing yet.
    fn new(heap: Global) -> Splitter {
        Splitter {
            heap,
            tokens: Vec::new(heap),
            letters: Vec::new(heap),
        }
    }

    // The tokens of a text.
    fn split(mut self, text: &[u8]) -> Result<Vec<Token>, AllocError> {
        for byte in text {
            match *byte {
                b'\t' | b'\n' | b'\r' | b' ' => self.end_word()?,
                b'(' => self.put_bracket(Token::Open)?,
                b')' => self.put_bracket(Token::Close)?,
                letter => self.letters.push(letter)?,
            }
        }
        self.end_word()?;
        Ok(self.tokens)
    }

    // Makes a word of the letters so far, if there are any.
    fn end_word(&mut self) -> Result<(), AllocError> {
        if !self.letters.is_empty() {
            let word = mem::replace(&mut self.letters, Vec::new(self.heap));
            self.tokens.push(Token::Word(word))?;
        }
        Ok(())
    }

    // Ends a word, and adds a bracket.
    fn put_bracket(&mut self, bracket: Token) -> Result<(), AllocError> {
        self.end_word()?;
        self.tokens.push(bracket)?;
        Ok(())
    }
}

// The number of parameters, if the first three tokens are as they should be.
fn head(tokens: &[Token]) -> Option<u8> {
    let [Token::Open, Token::Word(word), Token::Word(count), ..] = tokens else {
        return None;
    };
    if word.as_slice() != b"postfix".as_slice() {
        return None;
    }
    let count = u8::try_from(size(count.as_slice())?).ok()?;
    (count <= MOST_PARAMETERS).then_some(count)
}

// What stands between the first three tokens and the last bracket.
fn body(heap: Global, tokens: &[Token]) -> Result<Vec<Piece>, Stop<Objection>> {
    let mut pieces = Vec::new(heap);
    let mut depth = 1usize;
    let mut left = MOST_COMMANDS;
    for token in tokens.iter().skip(3) {
        if depth == 0 {
            return Err(Objection::Unbalanced.into());
        }
        let piece = Piece::try_from(token)?;
        if piece.is_command() {
            left = left.checked_sub(1).ok_or(Objection::TooMany)?;
        }
        match piece {
            Piece::Open => depth = depth.saturating_add(1),
            Piece::Close => depth -= 1,
            Piece::Numeral(_) | Piece::Word(_) => {}
        }
        if depth > 0 {
            pieces.push(piece)?;
        }
    }
    if depth > 0 {
        return Err(Objection::Unbalanced.into());
    }
    Ok(pieces)
}

// What a token is inside a program.
impl TryFrom<&Token> for Piece {
    type Error = Objection;

    fn try_from(token: &Token) -> Result<Piece, Objection> {
        Ok(match token {
            Token::Open => Piece::Open,
            Token::Close => Piece::Close,
            Token::Word(letters) => match Word::spelled(letters.as_slice()) {
                Some(word) => Piece::Word(word),
                None => Piece::Numeral(numeral(letters.as_slice())?),
            },
        })
    }
}

// The number that a word of digits stands for, perhaps behind a minus.
fn numeral(letters: &[u8]) -> Result<i64, Objection> {
    let (digits, is_negative) = match letters {
        [b'-', digits @ ..] => (digits, true),
        digits => (digits, false),
    };
    let size = size(digits).ok_or(Objection::NoSuchWord)?;
    if size > LARGEST + u64::from(is_negative) {
        return Err(Objection::OutOfRange);
    }
    let number = size as i64;
    Ok(if is_negative { -number } else { number })
}

// The number that some digits stand for, or the largest of 64 bits where it is larger; none where these are no digits.
fn size(digits: &[u8]) -> Option<u64> {
    if digits.is_empty() {
        return None;
    }
    digits.iter().try_fold(0u64, |total, digit| {
        // by its byte, since the toolkit asks the library whether a character is a digit
        let b'0'..=b'9' = *digit else {
            return None;
        };
        Some(
            total
                .saturating_mul(10)
                .saturating_add(u64::from(*digit - b'0')),
        )
    })
}
