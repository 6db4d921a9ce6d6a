// Reading a program from a text, and telling where a text is wrong.
#![tactic(auto)]

mod place;
mod reading;

pub use place::{Position, locate};
pub use reading::{ReadError, read};
