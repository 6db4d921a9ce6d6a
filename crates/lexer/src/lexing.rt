// A text's tokens, one after the other.
ghost use Rattle.std.specs.Prelude.{◌≡◌, ℕ, ◌<◌, ◌≤◌, Bool, false, length, slice_index};
ghost use Rattle.std.specs.List.{prefix_len};
ghost use Rattle.grammar.specs.Tokens.{tokens, white};
ghost use Rattle.lexer.specs.Lexing.{Leads, is_letter, rest, text_of};

use super::lexer::{Lexer, Token};

// Whether a byte only separates tokens.
fn is_white(b: u8) -> bool
    ensures { result ≡ white b }
{
    matches!(b, b'\t' | b'\n' | b'\r' | b' ')
}

// Whether a byte may stand in a word.
fn is_letter(b: u8) -> bool
    ensures { result ≡ is_letter b }
{
    !matches!(b, b'(' | b')') && !is_white(b)
}

// How many bytes at the front of a text pass a test.
fn front_len<F: Fn(u8) -> bool>(text: &[u8], passes: F) -> usize
    requires { F.IsAlwaysCallable passes }
    ensures within { result ≤ length text.now }
    ensures counts { (p : ℕ → Bool) → ((b : ℕ) (r : Bool) → F.post passes b r → r ≡ p b) → result ≡ prefix_len p text.now }
{
    text.iter().take_while(|b| passes(**b)).count()
}

// The token at the front of a text that begins with no white byte, and how many bytes it takes.
fn first_token(text: &[u8]) -> Option<(Token<'_>, usize)>
    requires { 0 < length text.now → white (slice_index text.now 0) ≡ false }
    ensures { Leads text.now result }
{
    match text {
        [] => None,
        [b'(', ..] => Some((Token::Open, 1)),
        [b')', ..] => Some((Token::Close, 1)),
        _ => {
            let len = front_len(text, is_letter);
            Some((Token::Word(&text[..len]), len))
        }
    }
}

impl<'a> Lexer<'a> {
    // A lexer with all of a text before it.
    pub fn new(text: &'a [u8]) -> Lexer<'a>
        ensures text { text_of result ≡ text.now }
        ensures rest { rest result ≡ tokens text.now }
        ensures start { result.start ≡ 0 }
    {
        Lexer {
            text,
            pos: 0,
            start: 0,
        }
    }

    // Where the token that was given last begins.
    pub fn start(&self) -> usize
        ensures { result ≡ self.now.start }
    {
        self.start
    }
}

impl<'a> Iterator for Lexer<'a> {
    ghost use Rattle.std.specs.Iterator.{item_count};
    ghost use Rattle.lexer.specs.Lexing.{Gives, rest};

    type Item = Token<'a>;

    ghost next_gives = { Gives };

    ghost remaining = { item_count rest };

    // The next token, if there is one.
    fn next(&mut self) -> Option<Token<'a>> {
        let text = self.text;
        let start = self.pos + front_len(&text[self.pos..], is_white);
        let Some((token, len)) = first_token(&text[start..]) else {
            // so that no later call passes them again
            self.pos = start;
            return None;
        };
        *self = Lexer {
            text,
            pos: start + len,
            start,
        };
        Some(token)
    }
}
