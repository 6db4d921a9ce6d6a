// The program record, and the two ways in and out of it: a builder that takes events in the order of the text, and a walker
// that gives them.
#![tactic(auto)]

mod arity;
mod build;
mod builder;
mod look;
mod record;
mod walk;
mod walker;

pub use arity::{Arity, TooManyParameters};
pub use builder::Builder;
pub use look::{each_place_is_reached_once, one_program_has_one_record};
pub use record::Program;
pub use walker::Walker;
