// Printing a program in its one standard form.
#![tactic(auto)]

mod printing;
mod text;

pub use printing::{every_record_reads_back, print};
