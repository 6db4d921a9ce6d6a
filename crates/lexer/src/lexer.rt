// A lexer's tokens and its state.
ghost use Rattle.std.specs.Prelude.{◌≤◌, length};

// A bracket, or a word by its bytes.
#[derive(Clone, Copy, PartialEq, Eq, Debug)]
pub enum Token<'a> {
    Open,
    Close,
    Word(&'a [u8]),
}

// A text, the place up to which its tokens were given, and the place where the token that was given last begins.
#[derive(Drop)]
pub struct Lexer<'a> {
    pub(crate) text: &'a [u8],
    pub(crate) pos: usize,
    pub(crate) start: usize,
    ghost within: { pos ≤ length text.now },
}
