// A text's tokens, and what the words among them are.
#![tactic(auto)]

mod lexer;
mod lexing;
mod words;

pub use lexer::{Lexer, Token};
pub use words::{NumeralError, command, digits, name, numeral};
