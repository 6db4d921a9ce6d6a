// How many parameters a program has.
ghost use Rattle.std.specs.Prelude.{◌≤◌};
ghost use Rattle.syntax.specs.Bounds.{most_parameters};

// A count of parameters that a program may have.
#[derive(Clone, Copy)]
pub struct Arity {
    pub(crate) count: u8,
    ghost few: { count ≤ most_parameters },
}

// A count that is above what a program may have.
#[derive(Clone, Copy, PartialEq, Eq, Debug)]
pub struct TooManyParameters;
