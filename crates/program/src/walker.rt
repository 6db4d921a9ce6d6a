// The walker's state.
use super::record::Program;
use stack::Stack;

// A walk over a program in the order of its text.
#[derive(Drop)]
pub struct Walker<'a, 'b, 'c> {
    pub(crate) program: &'a Program,
    // where the walk is, 0 at the end of a chain
    pub(crate) at: u16,
    // where it goes on after each bracket that it is in
    pub(crate) after: &'b mut Stack<'c, u16>,
}
