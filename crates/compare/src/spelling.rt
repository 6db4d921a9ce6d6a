// Texts from programs: tokens, and tokens put together with little or much between them.
use crate::dice::Dice;
use crate::generate::Generator;
use crate::reading::Token;
use crate::tree::{MOST_BYTES, Piece, Source};
use std::alloc::AllocError;
use std::iter;

// What may stand between tokens.
const WHITE: [u8; 4] = [b' ', b'\t', b'\n', b'\r'];

// What may stand in front of a number.
const ZEROS: [&str; 4] = ["", "0", "00", "000"];

// How far apart tokens stand.
#[derive(Clone, Copy)]
pub(crate) enum Spacing {
    // a blank where two words meet
    Tight,
    // a blank in front of each token
    Plain,
    // anything that separates, one or several times, or not at all where nothing has to
    Odd,
}

impl Spacing {
    // Any of the three.
    pub(crate) fn drawn(dice: &mut Dice) -> Spacing {
        dice.one_of(&[Spacing::Tight, Spacing::Plain, Spacing::Odd])
    }
}

impl Generator {
    // The tokens of a program, with zeros in front of some numbers.
    pub(crate) fn tokens(&mut self, source: &Source) -> Result<Vec<Token>, AllocError> {
        let mut tokens = Vec::new(self.heap);
        tokens.push(Token::Open)?;
        tokens.push(Token::word(self.heap, b"postfix")?)?;
        tokens.push(self.digits("", u64::from(source.parameters))?)?;
        for piece in source.pieces.iter() {
            tokens.push(self.token(*piece)?)?;
        }
        tokens.push(Token::Close)?;
        Ok(tokens)
    }

    // The token of a piece.
    fn token(&mut self, piece: Piece) -> Result<Token, AllocError> {
        match piece {
            Piece::Numeral(n) => self.numeral(n),
            Piece::Word(name) => Token::word(self.heap, name.spelling()),
            Piece::Open => Ok(Token::Open),
            Piece::Close => Ok(Token::Close),
        }
    }

    // A numeral; zero has a minus now and then.
    fn numeral(&mut self, n: i64) -> Result<Token, AllocError> {
        let minus = if n < 0 || n == 0 && self.dice.once_in(8) {
            "-"
        } else {
            ""
        };
        self.digits(minus, n.unsigned_abs())
    }

    // The digits of a number behind a sign, now and then with up to three zeros in between.
    fn digits(&mut self, sign: &str, n: u64) -> Result<Token, AllocError> {
        let zeros = if self.dice.once_in(6) {
            self.dice.one_of(&ZEROS)
        } else {
            ""
        };
        let letters = format!(in self.heap; "{sign}{zeros}{n}")?;
        Ok(Token::Word(letters.into_bytes()))
    }

    // The text of a program, which is not too long: with little between the tokens where it would be.
    pub(crate) fn program_text(&mut self, tokens: &[Token]) -> Result<Vec<u8>, AllocError> {
        let text = self.spaced(tokens)?;
        if text.len() > MOST_BYTES {
            return self.joined(tokens, Spacing::Tight);
        }
        Ok(text)
    }

    // The text of some tokens, with any spacing.
    pub(crate) fn spaced(&mut self, tokens: &[Token]) -> Result<Vec<u8>, AllocError> {
        let spacing = Spacing::drawn(&mut self.dice);
        self.joined(tokens, spacing)
    }

    // The text of some tokens.
    fn joined(&mut self, tokens: &[Token], spacing: Spacing) -> Result<Vec<u8>, AllocError> {
        let mut text = Vec::new(self.heap);
        let mut behind_word = false;
        for token in tokens {
            let is_word = matches!(token, Token::Word(_));
            self.put_gap(spacing, behind_word && is_word, &mut text)?;
            match token {
                Token::Open => text.push(b'(')?,
                Token::Close => text.push(b')')?,
                Token::Word(letters) => text.extend_from_slice(letters.as_slice())?,
            }
            behind_word = is_word;
        }
        self.put_gap(spacing, false, &mut text)?;
        Ok(text)
    }

    // What stands in front of a token; at least one byte where it has to separate two words.
    fn put_gap(
        &mut self,
        spacing: Spacing,
        needed: bool,
        text: &mut Vec<u8>,
    ) -> Result<(), AllocError> {
        let least = usize::from(needed);
        match spacing {
            Spacing::Tight => text.extend(iter::repeat_n(b' ', least)),
            Spacing::Plain => text.extend(iter::once(b' ')),
            Spacing::Odd => {
                let len = self.dice.below(4).max(least);
                text.extend((0..len).map(|_| self.dice.one_of(&WHITE)))
            }
        }
    }
}
