// Texts with something wrong in them, made from the tokens of a program. Some of them are programs all the same.
use crate::generate::Generator;
use crate::reading::Token;
use crate::tree::{MOST_BYTES, MOST_COMMANDS};
use std::alloc::AllocError;
use std::iter;

// Words that are wrong in most places, and some that look wrong and are right.
const STRANGE: [&[u8]; 28] = [
    b"2147483647",
    b"2147483648",
    b"-2147483648",
    b"-2147483649",
    b"4294967296",
    b"18446744073709551616",
    b"-99999999999999999999999999",
    b"000000000000000000000000007",
    b"-0000000000000002147483648",
    b"postfix",
    b"Postfix",
    b"Add",
    b"ad",
    b"adds",
    b"-",
    b"--1",
    b"+1",
    b"1-",
    b"0x1",
    b"1.0",
    b"\x00",
    b"1\x0b2",
    b"\xa0",
    b"add\xff",
    b"-0",
    b"8",
    b"9",
    b"08",
];

// Bytes that mean something, and some that are only letters.
const BYTES: [u8; 16] = [
    b'(', b')', b' ', b'\t', b'\n', b'\r', b'-', b'0', b'9', b'a', b'p', 0, 11, 12, 160, 255,
];

impl Generator {
    // A text of these tokens with one or two things wrong in it.
    pub(crate) fn damaged(&mut self, mut tokens: Vec<Token>) -> Result<Vec<u8>, AllocError> {
        let in_tokens = !self.dice.once_in(3);
        if in_tokens {
            self.damage_tokens(&mut tokens)?;
        }
        let mut text = self.spaced(tokens.as_slice())?;
        if !in_tokens || self.dice.once_in(8) {
            self.damage_bytes(&mut text)?;
        }
        Ok(text)
    }

    // Takes a token away, doubles or changes one, adds a strange one, or adds commands. A match, since a table of closures
    // would be handed the same `self` and tokens in each.
    fn damage_tokens(&mut self, tokens: &mut Vec<Token>) -> Result<(), AllocError> {
        let Some(at) = self.dice.place_in(tokens.len()) else {
            return Ok(());
        };
        match self.dice.below(7) {
            0 => {
                let _ = tokens.remove(at);
            }
            1 => tokens.insert(at, tokens[at].clone()?)?,
            2 => tokens[at] = self.strange()?,
            3 => tokens.insert(at, self.strange()?)?,
            4 => {
                let in_head = self.dice.below(tokens.len().min(3));
                tokens[in_head] = self.strange()?;
            }
            5 => tokens.push(self.strange()?)?,
            _ => self.crowd(tokens)?,
        }
        Ok(())
    }

    // A bracket or a strange word.
    fn strange(&mut self) -> Result<Token, AllocError> {
        match self.dice.below(6) {
            0 => Ok(Token::Open),
            1 => Ok(Token::Close),
            _ => Token::word(self.heap, self.dice.one_of(&STRANGE)),
        }
    }

    // Adds commands in front of the last bracket, until there are as many as a program may have, or a few more.
    fn crowd(&mut self, tokens: &mut Vec<Token>) -> Result<(), AllocError> {
        let commands = tokens
            .iter()
            .skip(3)
            .filter(|token| **token != Token::Close)
            .count();
        let goal = MOST_COMMANDS + self.dice.below(4);
        let _ = tokens.pop();
        for _ in commands..goal {
            if self.dice.once_in(4) {
                tokens.push(Token::Open)?;
                tokens.push(Token::Close)?;
            } else {
                tokens.push(Token::word(self.heap, b"1")?)?;
            }
        }
        tokens.push(Token::Close)?;
        Ok(())
    }

    // Takes a byte away, doubles or changes one, cuts the text off, or makes it long.
    fn damage_bytes(&mut self, text: &mut Vec<u8>) -> Result<(), AllocError> {
        let Some(at) = self.dice.place_in(text.len()) else {
            return Ok(());
        };
        match self.dice.below(6) {
            0 => {
                let _ = text.remove(at);
            }
            1 => text.insert(at, text[at])?,
            2 => text[at] = self.dice.one_of(&BYTES),
            3 => text[at] = self.dice.below(256) as u8,
            4 => text.truncate(at),
            _ => self.lengthen(at, text)?,
        }
        Ok(())
    }

    // Puts blanks or zeros in at some place, until there are as many bytes as a text may have, or a few less or more.
    fn lengthen(&mut self, at: usize, text: &mut Vec<u8>) -> Result<(), AllocError> {
        let filling = if self.dice.once_in(2) { b' ' } else { b'0' };
        let goal = MOST_BYTES - 3 + self.dice.below(8);
        let added = goal.saturating_sub(text.len());
        let at = at.min(text.len());
        let _ = text.splice(at..at, iter::repeat_n(filling, added))?;
        Ok(())
    }
}
