// The builder's state.
ghost use Rattle.layout.specs.Drafts.{holds_draft};
ghost use Rattle.stack.specs.Items.{items};
ghost use Rattle.std.specs.Prelude.{◌≡◌, true};

use super::arity::Arity;
use layout::{PLACES, Place};
use stack::Stack;

// A program that is being made in the order of its text, in the fixed memory that its record will have.
#[derive(Drop)]
pub struct Builder<'a, 'b> {
    pub(crate) places: [Place; PLACES],
    // the next place that is unused
    pub(crate) used: u16,
    // the last command of the innermost chain, 0 where it has none yet
    pub(crate) last: u16,
    // how many sequences there are
    pub(crate) sequences: u16,
    pub(crate) arity: Arity,
    // the places of the brackets that are open
    pub(crate) opens: &'a mut Stack<'b, u16>,
    ghost sound: { holds_draft places used last sequences (items opens.now.places.now opens.now.len) ≡ true },
}
