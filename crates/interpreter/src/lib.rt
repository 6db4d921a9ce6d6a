// Running a program over its record: values on one lent stack, unfinished chains on another.
#![tactic(auto)]

mod running;
mod turning;

pub use running::run;
