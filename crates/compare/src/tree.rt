// A program of its own make: its bounds, a list of the names, the pieces of a text in their order, and commands in a tree
// of boxes.
use crate::trouble::Trouble;
use std::alloc::Global;

// The most commands of a program, inner ones counted.
pub(crate) const MOST_COMMANDS: usize = 255;

// The most parameters of a program.
pub(crate) const MOST_PARAMETERS: u8 = 8;

// The most bytes of a text.
pub(crate) const MOST_BYTES: usize = 4_096;

// A name.
#[derive(Clone, Copy, PartialEq)]
pub(crate) enum Word {
    Add,
    Div,
    Eq,
    Exec,
    Gt,
    Lt,
    Mul,
    Nget,
    Pop,
    Rem,
    Sel,
    Sub,
    Swap,
}

// Every name.
pub(crate) const WORDS: [Word; 13] = [
    Word::Sub,
    Word::Add,
    Word::Mul,
    Word::Div,
    Word::Rem,
    Word::Lt,
    Word::Gt,
    Word::Eq,
    Word::Pop,
    Word::Swap,
    Word::Sel,
    Word::Nget,
    Word::Exec,
];

impl Word {
    // How the name is written.
    pub(crate) fn spelling(self) -> &'static [u8] {
        match self {
            Word::Add => b"add",
            Word::Div => b"div",
            Word::Eq => b"eq",
            Word::Exec => b"exec",
            Word::Gt => b"gt",
            Word::Lt => b"lt",
            Word::Mul => b"mul",
            Word::Nget => b"nget",
            Word::Pop => b"pop",
            Word::Rem => b"rem",
            Word::Sel => b"sel",
            Word::Sub => b"sub",
            Word::Swap => b"swap",
        }
    }

    // The name that is written so, if one is.
    pub(crate) fn spelled(letters: &[u8]) -> Option<Word> {
        WORDS.into_iter().find(|word| word.spelling() == letters)
    }
}

// A piece of a program's text.
#[derive(Clone, Copy, PartialEq)]
pub(crate) enum Piece {
    Numeral(i64),
    Word(Word),
    Open,
    Close,
}

impl Piece {
    // Whether a command begins here.
    pub(crate) fn is_command(&self) -> bool {
        *self != Piece::Close
    }
}

// A program as its text says it: the number of parameters, and what stands between that and the last bracket.
#[derive(Drop)]
pub(crate) struct Source {
    pub(crate) parameters: u8,
    pub(crate) pieces: Vec<Piece>,
}

impl Source {
    // How many commands there are.
    pub(crate) fn commands(&self) -> usize {
        let pieces = self.pieces.iter();
        pieces.filter(|piece| piece.is_command()).count()
    }
}

// Commands one after the other: each holds the rest of its chain, and a group holds a chain of its own.
#[derive(Drop)]
pub(crate) enum Code {
    End,
    Numeral(i64, Box<Code>),
    Word(Word, Box<Code>),
    Group(Box<Code>, Box<Code>),
}

// The tree of some pieces, made from the last piece to the first.
pub(crate) fn grow(heap: Global, pieces: &[Piece]) -> Result<Code, Trouble> {
    let mut chains = Vec::new(heap);
    let mut chain = Code::End;
    for piece in pieces.iter().rev() {
        chain = match *piece {
            Piece::Numeral(n) => Code::Numeral(n, Box::new(heap, chain)?),
            Piece::Word(word) => Code::Word(word, Box::new(heap, chain)?),
            Piece::Close => {
                chains.push(chain)?;
                Code::End
            }
            Piece::Open => {
                let rest = chains.pop().ok_or(Trouble::Brackets)?;
                Code::Group(Box::new(heap, chain)?, Box::new(heap, rest)?)
            }
        };
    }
    if chains.is_empty() {
        Ok(chain)
    } else {
        Err(Trouble::Brackets)
    }
}
